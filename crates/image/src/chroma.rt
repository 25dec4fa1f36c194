// The chroma components by name.

// One of the two components.
#[derive(Clone, Copy, PartialEq, Eq, Debug)]
pub enum Chroma {
    Cb,
    Cr,
}

// Which of them a row is made of: the calls for one plane ask for Cb alone, readers and fills for both.
#[derive(Clone, Copy, PartialEq, Eq, Debug)]
pub enum Components {
    CbAlone,
    Both,
}
