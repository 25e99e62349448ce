//! A picture of the schedule that a log tells.
#![tactic(auto)]

mod action_runs;
mod bars;
mod changeovers;
mod chart;
mod chart_status;
mod copy_key;
mod course;
mod courses;
mod deliveries;
mod frame;
mod head_marks;
mod laws;
mod lines;
mod log_picture;
mod marks;
mod named_start;
mod out_span;
mod page;
mod picture;
mod row;
mod rows;
mod scene;
mod start;
mod text_pieces;
mod title;
mod top;
mod view;
mod words;

pub use bars::{Bar, bars_of};
pub use chart::chart_main;
pub use chart_status::{ChartStatus, LongText};
pub use copy_key::CopyKey;
pub use course::Course;
pub use deliveries::Mark;
pub use laws::names_need_no_escape;
pub use out_span::{OutKind, OutSpan};
pub use page::{PAGE_FOOT, PAGE_HEAD};
pub use picture::draw;
pub use row::{Row, rows_of};
pub use scene::{Scene, scene_of};
pub use view::{Scope, View, scope_of};
