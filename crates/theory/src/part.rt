// A part of a project: the range of its levels, and what it costs at each of the five.

use cost::quote::Quote;
use scale::question::LEVELS;

#[derive(Clone, Copy)]
pub struct Part {
    pub floor: u8,
    pub ceiling: u8,
    pub quotes: [Quote; LEVELS],
}
