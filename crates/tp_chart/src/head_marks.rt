//! What stands above the bars: the lines that part them, and the moment.
use crate::bars::Bar;
use crate::frame::{AxisFrame, HEAD};
use std::alloc::AllocError;
use tp_base::Tick;

/// A thin line at the begin of each bar, which parts it from the one before.
pub(crate) fn put_edges(
    text: &mut String,
    frame: &AxisFrame,
    bars: &[Bar],
) -> Result<(), AllocError> {
    text.push_str("<path class=\"edge\" d=\"")?;
    for bar in bars {
        let x = frame.x(bar.begin);
        let y = frame.y(bar.row as u64).saturating_add(3);
        write!(text, "M{x} {y}v14")?;
    }
    text.push_str("\"/>\n")
}

/// The line of the moment, where it is in the picture.
fn put_moment(text: &mut String, frame: &AxisFrame, moment: Tick) -> Result<(), AllocError> {
    let tick = i64::from(moment);
    if frame.first <= tick && tick <= frame.last {
        let x = frame.x(tick);
        let top = HEAD - 4;
        let bottom = frame.bottom();
        write!(
            text,
            "<path class=\"now\" d=\"M{x} {top}V{bottom}\"><title>moment {moment}</title></path>\n"
        )?;
    }
    Ok(())
}

/// The line of the moment, and the end of the picture.
pub(crate) fn put_ending(
    text: &mut String,
    frame: &AxisFrame,
    moment: Tick,
) -> Result<(), AllocError> {
    put_moment(text, frame, moment)?;
    text.push_str("</svg>\n")
}
