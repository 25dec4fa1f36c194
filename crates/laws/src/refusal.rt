// Why a call is turned down, and the test by which it is: the first of a list that applies is the refusal. `Refusal` and its `number` are public:
// `reconstruction` passes the type on.
ghost use Rattle.std.specs.Prelude.{◌≡◌};
ghost use Rattle.laws.specs.Refusals.{first, number_of};

// The reasons of document 01's table, and from `NotCentred` on those that document 02's requests put into it. Each stands with what it is given
// for; `number` is its number there.
#[derive(Clone, Copy, PartialEq, Eq, Debug)]
pub enum Refusal {
    // A state that open, seek and row never leave.
    BadState,
    // Width or height 0 or over 8,192.
    BadSize,
    // A ratio outside 1 to 4, or a numerator that isn't 1, for the linear calls one that isn't 1 to the ratio.
    BadRatio,
    // Sample bytes not 1 or 2, a maxval that they can't hold, or the fixed kernel with a maxval that isn't 255.
    BadSamples,
    // A chroma size that isn't the rounded-up quotient.
    BadChroma,
    // Triangular with ratios that it has no rule for.
    NoTriangular,
    // A plane's stride below its row, or its data ending before its last row's end.
    BadPlane,
    // A pixel size that isn't 3 or 4.
    BadPixelSize,
    // Scratch too short.
    ShortScratch,
    // An output too short, or the RGB picture that a patch is read from.
    ShortOutput,
    // A row at or past the height.
    BadRow,
    // A row before the reader's place.
    RowPassed,
    // A single pixel's samples or maxval past their limits.
    BadPixel,
    // A header that isn't one, or bytes left over.
    BadHeader,
    // The program's size limits passed, or rows missing.
    TooLarge,
    // Co-sited chroma where only centred chroma is taken.
    NotCentred,
    // A sample above maxval.
    AboveMaxval,
    // Studio range with another maxval than 255, or with the fixed kernel.
    BadRange,
    // A rectangle past its limits.
    BadRectangle,
    // A chart that isn't 2 to 24 shades of three bytes each.
    BadChart,
    // A change that wasn't announced.
    OtherChange,
    // Two pictures of unequal geometry, or a weight above 16.
    Unlike,
}

impl Refusal {
    // The number that the papers, the C interface and the program have for it.
    pub fn number(self) -> u8
        ensures { result ≡ number_of self }
    {
        match self {
            Refusal::BadState => 1,
            Refusal::BadSize => 2,
            Refusal::BadRatio => 3,
            Refusal::BadSamples => 4,
            Refusal::BadChroma => 5,
            Refusal::NoTriangular => 6,
            Refusal::BadPlane => 7,
            Refusal::BadPixelSize => 8,
            Refusal::ShortScratch => 9,
            Refusal::ShortOutput => 10,
            Refusal::BadRow => 11,
            Refusal::RowPassed => 12,
            Refusal::BadPixel => 13,
            Refusal::BadHeader => 14,
            Refusal::TooLarge => 15,
            Refusal::NotCentred => 16,
            Refusal::AboveMaxval => 17,
            Refusal::BadRange => 18,
            Refusal::BadRectangle => 19,
            Refusal::BadChart => 20,
            Refusal::OtherChange => 21,
            Refusal::Unlike => 22,
        }
    }
}

// Inner: the answer of a call whose tests are these, each with its reason: the first reason whose test applies, or none. All the tests are made
// before this is called; where one asks that those before it didn't apply, the caller asks in two steps with a `?` between.
pub fn first<const N: usize>(tests: [(bool, Refusal); N]) -> Result<(), Refusal>
    ensures { result ≡ first tests.entry }
{
    for (applies, why) in tests {
        if applies {
            return Err(why);
        }
    }
    Ok(())
}
