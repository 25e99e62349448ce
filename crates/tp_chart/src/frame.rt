//! Where the parts of a picture stand, in pixels and in ticks.
ghost use Rattle.std.specs.Prelude.{◌≡◌};

use crate::bars::Bar;
use crate::course::Course;
use crate::row::Row;
use crate::scene::Scene;
use crate::view::{Scope, has_row};
use tp_base::Tick;

/// The height of a row, in pixels.
pub(crate) const ROW: u64 = 20;

/// The height of what stands above the rows: the title, the key and the ticks of the axis.
pub(crate) const HEAD: u64 = 96;

/// The width of a letter.
pub(crate) const LETTER: u64 = 8;

/// The width of a letter of the title.
const TITLE_LETTER: u64 = 9;

/// The width of a picture's times if they are few, in millionths of a pixel.
const FEW: u64 = 960_000_000;

/// The width of a tick if there are many.
const NARROW: u64 = 1_500_000;

/// The width of the times from which on rows are named at both ends, in pixels.
const WIDE: u64 = 1_200;

/// A label of the axis takes so much, in millionths of a pixel.
const LABEL: u64 = 80_000_000;

/// How far apart the ticks of the axis may be.
const STEPS: [i64; 30] = [
    1,
    2,
    5,
    10,
    20,
    50,
    100,
    200,
    500,
    1_000,
    2_000,
    5_000,
    10_000,
    20_000,
    50_000,
    100_000,
    200_000,
    500_000,
    1_000_000,
    2_000_000,
    5_000_000,
    10_000_000,
    20_000_000,
    50_000_000,
    100_000_000,
    200_000_000,
    500_000_000,
    1_000_000_000,
    2_000_000_000,
    5_000_000_000,
];

/// The ticks from `first` to `last`, drawn from `left` on, `scale` millionths of a pixel wide each. The axis has a tick at
/// each multiple of `step`. The longest name of a row is `label` pixels wide.
#[derive(Clone, Copy, Debug, PartialEq, Eq)]
pub(crate) struct AxisFrame {
    pub(crate) scope: Scope,
    pub(crate) first: i64,
    pub(crate) last: i64,
    pub(crate) step: i64,
    pub(crate) scale: u64,
    pub(crate) left: u64,
    pub(crate) label: u64,
    pub(crate) rows: u64,
    pub(crate) title: u64,
}

/// The first and the last tick of bars and deliveries.
fn bar_extent(scene: &Scene, bars: &[Bar]) -> (i64, i64) {
    let mut first = i64::MAX;
    let mut last = 0;
    for bar in bars {
        first = first.min(bar.begin);
        last = last.max(bar.end);
    }
    for course in scene.courses() {
        if let Some(at) = course.done() {
            last = last.max(i64::from(at));
        }
    }
    if bars.is_empty() {
        (0, i64::from(scene.moment()).max(10))
    } else {
        (first, last)
    }
}

/// The first and the last tick of what is drawn.
fn extent(scope: &Scope, scene: &Scene, bars: &[Bar]) -> (i64, i64) {
    let (first, last) = bar_extent(scene, bars);
    let first = match scope.first {
        Some(first) => i64::from(first),
        None => first,
    };
    (first, last.max(first.saturating_add(1)))
}

/// How many millionths of a pixel a tick takes, if there are so many.
fn scale_of(span: u64) -> u64 {
    (FEW / span.max(1)).max(NARROW)
}

fn step_of(scale: u64) -> i64 {
    for step in STEPS {
        if (step.unsigned_abs()).saturating_mul(scale) >= LABEL {
            return step;
        }
    }
    10_000_000_000
}

fn ticks_between(first: i64, last: i64) -> u64 {
    last.saturating_sub(first).max(0).unsigned_abs()
}

/// The last multiple of the step that is not above the tick.
fn round_down(tick: i64, step: i64) -> i64 {
    let step = step.max(1);
    let over = tick % step;
    let down = tick.saturating_sub(over);
    if over < 0 {
        down.saturating_sub(step)
    } else {
        down
    }
}

impl AxisFrame {
    /// The frame of a picture with so many rows, whose longest name has so many letters, and its title too.
    pub(crate) fn of(
        scope: &Scope,
        scene: &Scene,
        bars: &[Bar],
        rows: u64,
        letters: u64,
        title: u64,
    ) -> AxisFrame
        ensures { result.scope ≡ scope.now }
    {
        let (first, last) = extent(scope, scene, bars);
        let step = step_of(scale_of(ticks_between(first, last)));
        let first = match scope.first {
            Some(_) => first,
            None => round_down(first, step),
        };
        let label = letters.saturating_mul(LETTER);
        AxisFrame {
            scope: *scope,
            first,
            last,
            step,
            scale: scale_of(ticks_between(first, last)),
            left: label.saturating_add(24),
            label,
            rows,
            title: title.saturating_mul(TITLE_LETTER).saturating_add(32),
        }
    }

    /// The first tick of the axis.
    pub(crate) fn first_step(&self) -> i64 {
        let down = round_down(self.first, self.step);
        if down < self.first {
            down.saturating_add(self.step)
        } else {
            down
        }
    }

    /// How many pixels a tick is from the first one.
    pub(crate) fn across(&self, tick: i64) -> u64 {
        ticks_between(self.first, tick).saturating_mul(self.scale) / 1_000_000
    }

    /// Where a tick is, in pixels.
    pub(crate) fn x(&self, tick: i64) -> u64 {
        self.across(tick).saturating_add(self.left)
    }

    /// Where a row begins, in pixels.
    pub(crate) fn y(&self, row: u64) -> u64 {
        row.saturating_mul(ROW).saturating_add(HEAD)
    }

    /// Where the rows end.
    pub(crate) fn bottom(&self) -> u64 {
        self.y(self.rows)
    }

    /// Where the ticks end.
    pub(crate) fn right(&self) -> u64 {
        self.x(self.last)
    }

    /// Whether rows are named at both ends.
    pub(crate) fn is_wide(&self) -> bool {
        self.across(self.last) > WIDE
    }

    /// The width of the picture.
    pub(crate) fn width(&self) -> u64 {
        let beside = if self.is_wide() { self.label } else { 16 };
        self.right()
            .saturating_add(beside)
            .saturating_add(16)
            .max(self.title)
    }
}

fn count_copies(first: Option<Tick>, courses: &[Course]) -> u64 {
    let mut rows: u64 = 0;
    for course in courses {
        if has_row(first, course) {
            rows = rows.saturating_add(1);
        }
    }
    rows
}

/// How many rows there are: one for each copy, or else those of the machine.
pub(crate) fn count_rows(scope: &Scope, rows: &[Row], scene: &Scene) -> u64 {
    if scope.by_copies {
        count_copies(scope.first, scene.courses())
    } else {
        rows.len() as u64
    }
}
