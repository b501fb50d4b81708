//! Instances: a variable or a timer at a location.
ghost use Rattle.std.specs.Prelude.{◌≡◌, ◌/◌, ◌%◌};

use table::site::Site;

/// A variable or a timer at a location.
#[derive(Clone, Copy)]
pub struct Instance {
    /// Location l of process p is 16 * p + l.
    pub site: u8,
    /// Variable n is n, timer n is 8 + n.
    pub index: u8,
}

impl Instance {
    /// What stands in a place that is not in use.
    pub const NONE: Instance = Instance { site: 0, index: 0 };

    /// Where it is.
    pub fn location(self) -> Site
        ensures process { result.process ≡ self.site / 16 }
        ensures location { result.location ≡ self.site % 16 }
    {
        Site {
            process: usize::from(self.site / 16),
            location: usize::from(self.site % 16),
        }
    }
}
