// A price and the number of weeks that the work takes.
#[derive(Clone, Copy, PartialEq, Eq, Debug)]
pub struct Quote {
    pub price: u32,
    pub weeks: u32,
}
