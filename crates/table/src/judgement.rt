//! What can be said of one record alone.
ghost use Rattle.std.specs.Prelude.{◌≡◌, ◌≤◌, if◌then◌else◌, Some, None, ◌==◌};
ghost use Rattle.table.specs.Edges.{empty, guardable, valued};
ghost use Rattle.table.specs.Examination.{acts, frees, bad_process, bad_signal, too_long};
ghost use Rattle.std.specs.List.{list_any};
ghost use Rattle.table.specs.Lists.{meant};

use crate::limits;
use crate::record::{Class, Edge, Kind, Mode, Process, Signal, Span, Timer};

impl Timer {
    fn is_too_long(&self) -> bool
        ensures { result ≡ too_long self.now }
    {
        matches!(self, Timer::On(ticks) if *ticks > limits::TIME)
    }
}

impl Process {
    /// Whether a count, the first location or a timer is beyond its limit.
    pub fn is_bad(&self) -> bool
        ensures { result ≡ bad_process (meant self.now) }
    {
        if self.locations == 0
            || self.locations > limits::LOCATIONS
            || self.variables > limits::VARIABLES
            || self.timers > limits::TIMERS
        {
            return true;
        }
        self.first >= self.locations || self.has_long_timer()
    }

    fn has_long_timer(&self) -> bool
        requires { self.now.timers ≤ 8 }
        ensures { result ≡ list_any too_long (meant self.now).settings }
    {
        let settings = &self.settings[..usize::from(self.timers)];
        settings.iter().any(|timer| timer.is_too_long())
    }
}

impl Signal {
    /// Whether the class or the destination cannot be, in a table of so many processes.
    pub fn is_bad(&self, processes: usize) -> bool
        ensures { result ≡ bad_signal processes self.now }
    {
        match self.is() {
            Class::Internal | Class::Inbound => usize::from(self.destination) >= processes,
            Class::Outbound | Class::Absent => self.destination != 0,
            Class::Unknown => true,
        }
    }
}

impl Edge {
    pub fn acts(&self) -> bool
        ensures { result ≡ acts self.now }
    {
        matches!(
            self.does(),
            Kind::Output | Kind::Assignment | Kind::Set | Kind::Reset | Kind::Skip
        )
    }

    /// The variable that the edge stores if it is an input; none if its value is dropped.
    pub fn stored(&self) -> Option<u8>
        ensures { result ≡ (if self.now.second == 15 then None else Some self.now.second) }
    {
        (self.second != limits::DROPPED).then_some(self.second)
    }

    pub fn is_free(&self) -> bool
        ensures { result ≡ frees self.now }
    {
        matches!(self.guarded(), Mode::Unguarded | Mode::Else)
    }
}

impl Span {
    /// Neither a start nor a count.
    pub fn is_empty(&self) -> bool
        ensures { result ≡ empty self.now }
    {
        self.start == 0 && self.count == 0
    }
}

impl Kind {
    pub fn may_be_guarded(self) -> bool
        ensures { result ≡ guardable self }
    {
        !matches!(self, Kind::Input | Kind::Timeout | Kind::Rearm)
    }

    pub fn has_value(self) -> bool
        ensures { result ≡ valued self }
    {
        matches!(self, Kind::Output | Kind::Assignment | Kind::Set)
    }
}
