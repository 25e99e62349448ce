//! The top of a picture: its size and colours, and the key.
use crate::frame::{AxisFrame, ROW};
use crate::text_pieces::{put_bytes, put_name};
use std::alloc::AllocError;
use tp_machine::Names;

/// How many colours there are. A job more has the first one again.
pub(crate) const COLOURS: usize = 8;

/// A colour-blind eye can tell them apart, on white and on black.
const PALETTE: [&str; COLOURS] = [
    "#0072b2", "#e69f00", "#009e73", "#cc79a7", "#56b4e9", "#d55e00", "#d9cb2e", "#993333",
];

/// How many jobs the key names.
const NAMED: usize = 8;

const STYLE: &str = "<style>
svg{font:12px ui-monospace,Menlo,Consolas,'DejaVu Sans Mono',monospace}
.back{fill:#fff}.ink{fill:#1f2328}.faint{fill:#636c76}.stripe{fill:#f4f6f8}
.off{fill:#8b949e;fill-opacity:.4}.out{fill:#8b949e;fill-opacity:.25}.jam{fill:url(#jam)}.stuck{fill:url(#stuck)}.dim{fill:#8b949e}
.grid{stroke:#d0d7de}.now{stroke:#1f2328;stroke-dasharray:4 3}.edge{stroke:#fff;stroke-width:.8}
.cross{fill:url(#x);pointer-events:none}.x{fill:none;stroke:#1f2328;stroke-width:1.3}
.mode{fill:#1f2328;pointer-events:none}.over{fill:none;stroke:#636c76;stroke-width:.8;pointer-events:all}
@media (prefers-color-scheme:dark){.back{fill:#0d1117}.ink{fill:#e6edf3}.faint{fill:#9198a1}.stripe{fill:#151b23}
.grid{stroke:#30363d}.now{stroke:#e6edf3}.edge{stroke:#0d1117}.x{stroke:#e6edf3}.mode{fill:#e6edf3}
.over{stroke:#9198a1}}
";

/// The patterns of bands of modules that jammed, and that are stuck.
const OUTS: &str =
    "<pattern id=\"jam\" width=\"6\" height=\"6\" patternUnits=\"userSpaceOnUse\" patternTransform=\"rotate(-45)\"><rect class=\"off\" width=\"6\" height=\"6\"/><rect class=\"dim\" width=\"2\" height=\"6\"/></pattern>
<pattern id=\"stuck\" width=\"6\" height=\"6\" patternUnits=\"userSpaceOnUse\"><rect class=\"off\" width=\"6\" height=\"6\"/><circle class=\"dim\" cx=\"3\" cy=\"3\" r=\"1.6\"/></pattern>
";

/// A number of millionths, as a decimal.
pub(crate) fn put_millionths(text: &mut String, number: u64) -> Result<(), AllocError> {
    let whole = number / 1_000_000;
    let part = number % 1_000_000;
    write!(text, "{whole}.{part:06}")
}

/// What gives the pattern of a bar its own size: bars are drawn in ticks and rows.
fn put_back_scale(text: &mut String, scale: u64, height: u64) -> Result<(), AllocError> {
    text.push_str("patternUnits=\"userSpaceOnUse\" patternTransform=\"scale(")?;
    put_millionths(text, 1_000_000_000_000 / scale.max(1))?;
    text.push_str(",")?;
    put_millionths(text, 1_000_000 / height.max(1))?;
    text.push_str(")")
}

/// The pattern of a planned bar.
fn put_hatch(
    text: &mut String,
    id: usize,
    colour: &str,
    scale: u64,
    height: u64,
) -> Result<(), AllocError> {
    write!(text, "<pattern id=\"h{id}\" width=\"5\" height=\"5\" ")?;
    put_back_scale(text, scale, height)?;
    write!(
        text,
        " rotate(45)\"><rect width=\"5\" height=\"5\" fill=\"{colour}\" fill-opacity=\".25\"/><rect width=\"1.8\" height=\"5\" fill=\"{colour}\"/></pattern>\n"
    )
}

/// The pattern of a cross.
fn put_cross(text: &mut String, scale: u64) -> Result<(), AllocError> {
    text.push_str("<pattern id=\"x\" width=\"7\" height=\"7\" ")?;
    put_back_scale(text, scale, ROW)?;
    text.push_str("\"><path class=\"x\" d=\"M0 0L7 7M7 0L0 7\"/></pattern>\n")
}

fn put_colours(text: &mut String) -> Result<(), AllocError> {
    text.push_str(STYLE)?;
    for id in 0..COLOURS {
        let colour = PALETTE[id];
        write!(
            text,
            ".j{id}{{fill:{colour}}}.p{id}{{fill:url(#h{id})}}.d{id}{{fill:none;stroke:{colour};stroke-width:2;pointer-events:all}}\n"
        )?;
    }
    text.push_str(
        ".k{fill:url(#h8)}.r{fill:#8b949e}.d{fill:none;stroke:#8b949e;stroke-width:2}\n</style>\n<defs>\n",
    )
}

fn put_hatches(text: &mut String, scale: u64) -> Result<(), AllocError> {
    for id in 0..COLOURS {
        put_hatch(text, id, PALETTE[id], scale, ROW)?;
    }
    put_hatch(text, COLOURS, "#8b949e", 1_000_000, 1)?;
    put_cross(text, scale)?;
    text.push_str(OUTS)?;
    text.push_str("</defs>\n")
}

/// The beginning of the picture: its size, and its title as its label.
pub(crate) fn put_size(
    text: &mut String,
    frame: &AxisFrame,
    title: &[u8],
) -> Result<(), AllocError> {
    let width = frame.width();
    let height = frame.bottom().saturating_add(ROW);
    write!(
        text,
        "<svg xmlns=\"http://www.w3.org/2000/svg\" width=\"{width}\" height=\"{height}\" viewBox=\"0 0 {width} {height}\" role=\"img\" aria-label=\""
    )?;
    put_bytes(text, title)?;
    text.push_str("\">\n")
}

/// The names of the first jobs, each in its colour.
fn put_jobs(text: &mut String, jobs: &Names) -> Result<(), AllocError> {
    let mut x: usize = 16;
    let count = (jobs.len() as usize).min(NAMED);
    for at in 0..count {
        let name = jobs.get(at as u16);
        let colour = at % COLOURS;
        let beside = x.saturating_add(18);
        write!(
            text,
            "<rect class=\"j{colour}\" x=\"{x}\" y=\"36\" width=\"12\" height=\"12\"/><text class=\"ink\" x=\"{beside}\" y=\"46\">"
        )?;
        put_name(text, &name)?;
        text.push_str("</text>\n")?;
        let letters = name.as_bytes().len();
        x = beside
            .saturating_add(letters.saturating_mul(8))
            .saturating_add(16);
    }
    if count == 0 {
        text.push_str("<text class=\"faint\" x=\"16\" y=\"46\">no sheet is drawn</text>\n")?;
    }
    let more = (jobs.len() as usize).saturating_sub(count);
    if more > 0 {
        write!(
            text,
            "<text class=\"faint\" x=\"{x}\" y=\"46\">and {more} more</text>\n"
        )?;
    }
    Ok(())
}

/// What the kinds of bars and marks mean.
fn put_key(text: &mut String) -> Result<(), AllocError> {
    text.push_str(
        "<rect class=\"r\" x=\"16\" y=\"56\" width=\"18\" height=\"12\"/><text class=\"faint\" x=\"40\" y=\"66\">released</text>
<rect class=\"k\" x=\"118\" y=\"56\" width=\"18\" height=\"12\"/><text class=\"faint\" x=\"142\" y=\"66\">planned</text>
<rect class=\"r\" x=\"212\" y=\"56\" width=\"18\" height=\"12\"/><path class=\"x\" d=\"M212 56l18 12m0-12l-18 12\"/><text class=\"faint\" x=\"236\" y=\"66\">lost</text>
<path class=\"r\" d=\"M291 56l6 6-6 6-6-6z\"/><text class=\"faint\" x=\"304\" y=\"66\">delivered</text>
<path class=\"d\" d=\"M395 56l6 6-6 6-6-6z\"/><text class=\"faint\" x=\"408\" y=\"66\">purged</text>
<rect class=\"jam\" x=\"472\" y=\"56\" width=\"18\" height=\"12\"/><text class=\"faint\" x=\"496\" y=\"66\">jam</text>
<rect class=\"off\" x=\"536\" y=\"56\" width=\"18\" height=\"12\"/><text class=\"faint\" x=\"560\" y=\"66\">off</text>
<rect class=\"stuck\" x=\"600\" y=\"56\" width=\"18\" height=\"12\"/><text class=\"faint\" x=\"624\" y=\"66\">stuck</text>
<path class=\"over\" d=\"M680 56h18v12h-18z\"/><text class=\"faint\" x=\"704\" y=\"66\">changeover</text>
<rect class=\"r\" x=\"800\" y=\"56\" width=\"18\" height=\"12\"/><rect class=\"mode\" x=\"800\" y=\"65\" width=\"18\" height=\"3\"/><text class=\"faint\" x=\"824\" y=\"66\">mode above 0</text>\n",
    )
}

/// What stands between the title and the rows: the colours, the title as a text, and the key.
pub(crate) fn put_top(
    text: &mut String,
    frame: &AxisFrame,
    title: &[u8],
    jobs: &Names,
) -> Result<(), AllocError> {
    put_colours(text)?;
    put_hatches(text, frame.scale)?;
    text.push_str(
        "<rect class=\"back\" width=\"100%\" height=\"100%\"/>\n<text class=\"ink\" x=\"16\" y=\"24\" font-size=\"15\" font-weight=\"bold\">",
    )?;
    put_bytes(text, title)?;
    text.push_str("</text>\n")?;
    put_jobs(text, jobs)?;
    put_key(text)
}
