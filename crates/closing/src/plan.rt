//! What a closing layer knows of the table below.
ghost use Rattle.std.specs.Prelude.{◌≡◌, length};

use loops::row::Loops;
use marks::marks::Marks;
use survey::spots::Survey;

/// All that the layer's answers need, computed once: the marks, what was seen of locations and processes, how many timers each
/// process has, and the added edges.
#[derive(Drop)]
pub struct Plan {
    pub(crate) marks: Marks,
    pub(crate) survey: Survey,
    pub(crate) timers: [u8; 8],
    pub(crate) loops: Loops,
    ghost eight: { length timers ≡ 8 },
}
