// A path gives levels to the first parts; the parts beyond it stand at their ceilings, so that a set can be asked at once.

use theory::limits::MOST_PARTS;

#[derive(Clone, Copy)]
pub struct Path {
    // The levels of all parts, those of the path first: an array, since each part has a level on the path or beyond it.
    pub levels: [u8; MOST_PARTS],
    // How many parts are on the path.
    pub count: usize,
}
