//! The edge that an added loop is.
ghost use Rattle.std.specs.Prelude.{◌≡◌};
ghost use Rattle.loops.specs.Rows.{loop_edge};

use crate::row::{Loop, Place, Turn};
use table::record::{Edge, Kind, Mode, Span};
use table::site::Site;

impl Place {
    pub(crate) fn site(self) -> Site
        ensures process { result.process ≡ self.process }
        ensures location { result.location ≡ self.location }
    {
        Site {
            process: self.process.into(),
            location: self.location.into(),
        }
    }
}

impl From<Loop> for Edge {
    ghost from_gives = { λ x e. e ≡ loop_edge x };

    fn from(added: Loop) -> Edge {
        let (kind, second) = match added.turn {
            Turn::Timeout => (Kind::Timeout, 0),
            Turn::Rearm => (Kind::Rearm, 1),
        };
        Edge {
            process: added.place.process,
            from: added.place.location,
            to: added.place.location,
            kind: kind as u8,
            first: added.timer,
            second,
            mode: Mode::Unguarded as u8,
            guard: Span::default(),
            value: Span::default(),
        }
    }
}
