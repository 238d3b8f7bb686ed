//! How a path is drawn along its points.

ghost use Rattle.std.specs.Prelude.{◌≡◌};
ghost use Rattle.gds_path.specs.Paths.{before_first, behind_last};

/// How far a path goes beyond its first point and its last, in database units; short of them where negative.
#[derive(Clone, Copy, Debug, PartialEq, Eq)]
pub struct Extension {
    pub begin: i64,
    pub end: i64,
}

/// The ends of a path.
#[derive(Clone, Copy, Debug, PartialEq, Eq)]
pub enum Ends {
    /// At the first point and at the last one: PATHTYPE 0, or none.
    Flush,
    /// Half a width beyond them: PATHTYPE 2.
    Square,
    /// As far beyond each as BGNEXTN and ENDEXTN say: PATHTYPE 4.
    Extended(Extension),
}

/// How a path is drawn along its points: half its width, in database units, and its ends.
#[derive(Clone, Copy, Debug, PartialEq, Eq)]
pub struct Stroke {
    pub half_width: i64,
    pub ends: Ends,
}

impl Stroke {
    /// How far the path goes beyond its first point.
    pub(crate) fn before_first(&self) -> i64
        ensures { result ≡ before_first self.now }
    {
        match self.ends {
            Ends::Flush => 0,
            Ends::Square => self.half_width,
            Ends::Extended(extension) => extension.begin,
        }
    }

    /// How far a segment goes beyond a corner.
    pub(crate) fn beyond_corner(&self) -> i64
        ensures { result ≡ self.now.half_width }
    {
        self.half_width
    }

    /// How far it goes beyond its last point.
    pub(crate) fn behind_last(&self) -> i64
        ensures { result ≡ behind_last self.now }
    {
        match self.ends {
            Ends::Flush => 0,
            Ends::Square => self.half_width,
            Ends::Extended(extension) => extension.end,
        }
    }
}
