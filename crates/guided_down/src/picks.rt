// Which extreme is looked for.

// Which of two samples is taken: of many, the smaller in turn gives the least, and the greater the greatest.
#[derive(Clone, Copy)]
pub enum Pick {
    Smaller,
    Greater,
}
