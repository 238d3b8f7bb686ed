//! A pen that goes along the points of a path.

ghost use Rattle.std.specs.Prelude.{◌≡◌};
ghost use Rattle.std.specs.Option.{option_to_list};
ghost use Rattle.gds_path.specs.Paths.{IsDrawable, IsMeasured, IsMeasuredPoint, rect_of};
ghost use Rattle.gds_path.specs.Working.Pens.{IsSteady, drawn_to, gone, moved, started, turned, turns};

use crate::along::{heading, is_same, is_same_side, less, more, with_area};
use crate::stroke::Stroke;
use drc_geom::{Pt, Rect, Side};

/// Where a pen is, the corner behind it and its direction since, and by how much the segment is lengthened at that corner.
/// It has no direction before it has left the first point.
#[derive(Clone, Copy)]
pub(crate) struct Pen {
    pub(crate) corner: Pt,
    pub(crate) at: Pt,
    pub(crate) heading: Option<Side>,
    pub(crate) before: i64,
}

impl Pen {
    pub(crate) fn start(at: Pt, before: i64) -> Pen
        requires at { IsMeasuredPoint at }
        requires before { IsMeasured before }
        ensures value { result ≡ started at before }
        ensures steady { IsSteady result }
    {
        Pen {
            corner: at,
            at,
            heading: None,
            before,
        }
    }

    /// Whether the pen is at a corner, if it goes there next.
    pub(crate) fn turns(&self, to: Pt) -> bool
        ensures { result ≡ turns self.now to }
    {
        match self.heading {
            Some(side) => !is_same(self.at, to) && !is_same_side(side, heading(self.at, to)),
            None => false,
        }
    }

    /// The pen when it has gone there.
    pub(crate) fn moved(&self, to: Pt, stroke: &Stroke) -> Pen
        requires pen { IsSteady self.now }
        requires to { IsMeasuredPoint to }
        requires stroke { IsDrawable stroke.now }
        ensures value { result ≡ moved stroke.now.half_width self.now to }
        ensures steady { IsSteady result }
    {
        if self.turns(to) {
            self.turned(to, stroke)
        } else {
            self.gone(to)
        }
    }

    fn turned(&self, to: Pt, stroke: &Stroke) -> Pen
        requires pen { IsSteady self.now }
        requires to { IsMeasuredPoint to }
        requires stroke { IsDrawable stroke.now }
        ensures value { result ≡ turned stroke.now.half_width self.now to }
        ensures steady { IsSteady result }
    {
        Pen {
            corner: self.at,
            at: to,
            heading: Some(heading(self.at, to)),
            before: stroke.half_width,
        }
    }

    fn gone(&self, to: Pt) -> Pen
        requires pen { IsSteady self.now }
        requires to { IsMeasuredPoint to }
        ensures value { result ≡ gone self.now to }
        ensures steady { IsSteady result }
    {
        if is_same(self.at, to) {
            return *self;
        }
        Pen {
            corner: self.corner,
            at: to,
            heading: Some(heading(self.at, to)),
            before: self.before,
        }
    }

    /// The rectangle of the segment from the corner to the pen, if it has an area, lengthened so beyond the pen.
    pub(crate) fn drawn_to(&self, stroke: &Stroke, behind: i64) -> Option<Rect>
        requires pen { IsSteady self.now }
        requires stroke { IsDrawable stroke.now }
        requires behind { IsMeasured behind }
        ensures { option_to_list result ≡ drawn_to stroke.now.half_width behind self.now }
    {
        match self.heading {
            Some(side) => with_area(self.rect(side, stroke, behind)),
            None => None,
        }
    }

    fn rect(&self, side: Side, stroke: &Stroke, behind: i64) -> Rect
        requires pen { IsSteady self.now }
        requires stroke { IsDrawable stroke.now }
        requires behind { IsMeasured behind }
        ensures { result ≡ rect_of side stroke.now.half_width self.now.before behind self.now.corner self.now.at }
    {
        let (a, b) = (self.corner, self.at);
        let half_width = stroke.beyond_corner();
        match side {
            Side::E => Rect {
                x0: less(a.x, self.before),
                y0: less(a.y, half_width),
                x1: more(b.x, behind),
                y1: more(a.y, half_width),
            },
            Side::W => Rect {
                x0: less(b.x, behind),
                y0: less(a.y, half_width),
                x1: more(a.x, self.before),
                y1: more(a.y, half_width),
            },
            Side::N => Rect {
                x0: less(a.x, half_width),
                y0: less(a.y, self.before),
                x1: more(a.x, half_width),
                y1: more(b.y, behind),
            },
            Side::S => Rect {
                x0: less(a.x, half_width),
                y0: less(b.y, behind),
                x1: more(a.x, half_width),
                y1: more(a.y, self.before),
            },
        }
    }
}
