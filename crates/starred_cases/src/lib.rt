// The cases that document 01 marks with a star under 'Bench cases', each proved by computing its definition. There is no function here.
//
// The list is `starred` of specs/Starred, in document 01's order and words, and one theorem says that all of it holds: `starred_hold` of
// proofs/Hold. The case with constant chroma, which has no star and is about every picture, is `constant_kept` of proofs/Constant.
#![tactic(auto)]
