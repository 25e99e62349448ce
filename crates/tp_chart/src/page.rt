//! A page with a picture in it.
ghost use Rattle.std.specs.Prelude.{◌≡◌, IfOk};
ghost use Rattle.tp_chart.specs.Pages.{page_of};

use std::alloc::Global;
use tp_base::Memory;

/// What stands before the picture.
pub const PAGE_HEAD: &str = "<!DOCTYPE html>
<html lang='en'>
<head>
<meta charset='utf-8'>
<meta name='viewport' content='width=device-width'>
<title>Schedule</title>
<style>
body{margin:0;background:#fff;color:#1f2328;font:13px ui-monospace,Menlo,Consolas,'DejaVu Sans Mono',monospace}
#line{display:flex;gap:8px;align-items:center;padding:8px 16px}
#line button{font:inherit;min-width:2.4em}
#frame{overflow:auto;max-height:calc(100vh - 130px)}
#frame svg{display:block}
#axis{position:sticky;top:0;z-index:1}
#rows{display:flex;width:max-content}
#names{position:sticky;left:0;z-index:2;flex:none}
#times{flex:none}
.some path:not(.lit):not(.grid):not(.now):not(.edge){opacity:.2}
.some .lit{opacity:1}
@media (prefers-color-scheme:dark){body{background:#0d1117;color:#e6edf3}}
</style>
</head>
<body>
";

/// What stands behind it: a script that lets the page scroll and zoom along time, keeps the names of rows and the axis in view, lights
/// all bars of the sheet that is clicked, and tells the tick and the bar under the pointer.
pub const PAGE_FOOT: &str = "<script>
'use strict';
// The parts of the picture are moved into a frame that scrolls: the names of rows stay at its left, the axis at its top.
const picture = document.querySelector('svg');
const plot = picture.querySelector('svg');
const bars = plot.querySelector('g');
const [left, top_, wide, high] = ['x', 'y', 'width', 'height'].map(name => Number(plot.getAttribute(name)));
const [scale, row, back] = bars.getAttribute('transform').match(/-?[0-9.]+/g).map(Number);
const AXIS = 20;
const make = (tag, attributes, text) => {
  const made = document.createElementNS('http://www.w3.org/2000/svg', tag);
  for (const name in attributes) made.setAttribute(name, attributes[name]);
  if (text !== undefined) made.textContent = text;
  return made;
};
const part = (id, width, height, y) => {
  const made = make('svg', {id, width, height, viewBox: `0 ${y} ${width} ${height}`});
  made.append(make('rect', {class: 'back', y, width: '100%', height: '100%'}));
  return made;
};
const place = element => {
  const path = element.getAttribute('d');
  return path ? path.match(/-?[0-9.]+/g).slice(0, 2).map(Number) : ['x', 'y'].map(name => Number(element.getAttribute(name)));
};

// The parts.
const axis = part('axis', left + wide, AXIS, 0);
const names = part('names', left, high + row, top_);
const times = part('times', wide, high + row, top_);
const grid = make('g', {});
const labels = make('g', {});
const stretched = [];
const marks = [];
axis.append(labels);
const elements = [...picture.children].filter(element => !element.matches('style, defs, title, .back'));
for (const element of elements.filter(element => element.matches('.stripe'))) {
  names.append(element.cloneNode());
  element.setAttribute('x', 0);
  element.setAttribute('width', '100%');
  times.append(element);
}
times.append(grid);
for (const element of elements) {
  const [x, y] = place(element);
  const isText = element.tagName === 'text';
  if (element.matches('.stripe') || y < top_ - AXIS) continue;
  if (element === plot) {
    plot.setAttribute('x', 0);
    times.append(plot);
  } else if (element.matches('.grid') || (isText && (y < top_ || x > left + wide))) {
    // The axis is drawn anew at each zoom, and the names stay at the left.
    element.remove();
  } else if (x < left) {
    names.append(element);
  } else {
    times.append(element);
    if (isText || /[0-9]l/.test(element.getAttribute('d'))) marks.push([element, x]);
    else stretched.push(element);
    element.setAttribute('vector-effect', 'non-scaling-stroke');
  }
}
for (const name of ['viewBox', 'width']) picture.removeAttribute(name);
picture.setAttribute('width', '100%');
picture.setAttribute('height', top_ - AXIS);
const patterns = [...picture.querySelectorAll('pattern')].map(pattern => [pattern, pattern.getAttribute('patternTransform')])
  .filter(([, text]) => !/^scale[(]1[.]0+,1[.]0+[)]/.test(text));

const frame = document.createElement('div');
const rows = document.createElement('div');
const line = document.createElement('div');
const told = document.createElement('span');
[frame.id, rows.id, line.id, told.id] = ['frame', 'rows', 'line', 'told'];
rows.append(names, times);
frame.append(axis, rows);
document.body.append(line, frame);

// Zoom: so many times the width of the picture. A tick has at most 100 pixels.
let zoom = 1;
const fit = () => Math.min(1, Math.max(0.001, (frame.clientWidth - left - 16) / wide));
const drawAxis = () => {
  const pixels = scale * zoom;
  let step = 1;
  while (step * pixels < 80) step *= String(step).startsWith('2') ? 2.5 : 2;
  const from = -back + frame.scrollLeft / pixels;
  const to = -back + Math.min(wide * zoom, frame.scrollLeft + frame.clientWidth) / pixels;
  grid.replaceChildren();
  labels.replaceChildren();
  for (let tick = Math.ceil(from / step) * step; tick <= to; tick += step) {
    const x = (tick + back) * pixels;
    grid.append(make('path', {class: 'grid', d: `M${x} ${top_}v${high}`}));
    labels.append(make('text', {class: 'faint', x: x + left, y: AXIS - 6, 'text-anchor': 'middle'}, tick));
  }
};
const resize = (svg, width) => {
  const view = svg.getAttribute('viewBox').split(' ');
  view[2] = width;
  svg.setAttribute('width', width);
  svg.setAttribute('viewBox', view.join(' '));
};
const zoomTo = (wanted, beside) => {
  const before = zoom;
  zoom = Math.min(Math.max(wanted, fit()), Math.max(1, 100 / scale));
  const at = (frame.scrollLeft + beside) / before;
  resize(axis, left + wide * zoom + 16);
  resize(times, wide * zoom + 16);
  plot.setAttribute('width', wide * zoom);
  bars.setAttribute('transform', `scale(${scale * zoom},${row}) translate(${back},0)`);
  for (const [pattern, text] of patterns) {
    pattern.setAttribute('patternTransform', text.replace(/^scale[(][0-9.]+/, it => `scale(${Number(it.slice(6)) / zoom}`));
  }
  for (const element of stretched) element.setAttribute('transform', `scale(${zoom},1) translate(${-left},0)`);
  for (const [element, x] of marks) element.setAttribute('transform', `translate(${(x - left) * zoom - x},0)`);
  frame.scrollLeft = at * zoom - beside;
  drawAxis();
};
const middle = () => (frame.clientWidth - left) / 2;
for (const [text, title, act] of [
  ['-', 'less of each tick', () => zoomTo(zoom / 2, middle())],
  ['+', 'more of each tick', () => zoomTo(zoom * 2, middle())],
  ['all', 'all ticks', () => zoomTo(0, 0)],
]) {
  const button = document.createElement('button');
  [button.textContent, button.title, button.onclick] = [text, title, act];
  line.append(button);
}
line.append(told);
document.addEventListener('keydown', event => {
  const button = [...line.querySelectorAll('button')].find(it => it.textContent === event.key);
  if (button) button.click();
  if (event.key === 'Escape') light(null);
});
frame.addEventListener('scroll', drawAxis);
window.addEventListener('resize', () => zoomTo(zoom, 0));
frame.addEventListener('wheel', event => {
  if (!event.ctrlKey) return;
  event.preventDefault();
  zoomTo(zoom * (event.deltaY < 0 ? 1.25 : 0.8), Math.max(0, event.clientX - frame.getBoundingClientRect().left - left));
}, {passive: false});

// The copies of a sheet, by the first word of a title: a job, a sheet and a copy, with dots between.
const sheets = new Map();
const titleOf = element => [...element.children].find(it => it.tagName === 'title');
const sheetOf = title => (/^([^ ]+)[.][0-9]+ /.exec(title ? title.textContent : '') || [])[1];
let last = null;
for (const element of [...bars.children, ...marks.map(([mark]) => mark)]) {
  if (titleOf(element)) last = sheetOf(titleOf(element));
  else element.style.pointerEvents = 'none';
  if (last) sheets.set(last, [...(sheets.get(last) || []), element]);
}
let lit = null;
function light(sheet) {
  for (const element of sheets.get(lit) || []) element.classList.remove('lit');
  lit = sheet === lit ? null : sheet;
  for (const element of sheets.get(lit) || []) element.classList.add('lit');
  times.classList.toggle('some', lit !== null);
  tell();
}
const tell = event => {
  let text = 'Click a bar for all bars of its sheet.';
  if (event) {
    const x = event.clientX - times.getBoundingClientRect().left;
    text = `tick ${Math.floor(x / (scale * zoom)) - back}`;
    const title = titleOf(event.target);
    if (title) text += `: ${title.textContent}`;
  }
  told.textContent = lit === null ? text : `[${lit}] ${text}`;
};
times.addEventListener('mousemove', tell);
times.addEventListener('mouseleave', () => tell());
times.addEventListener('click', event => light(sheetOf(titleOf(event.target)) || null));
tell();
zoomTo(1, 0);
</script>
</body>
</html>
";

/// The text between two others, or alone.
fn between(
    alloc: Global,
    head: &str,
    foot: &str,
    is_between: bool,
    text: Vec<u8>,
) -> Result<Vec<u8>, Memory>
    ensures { IfOk result (λ all. all.items
        ≡ page_of head.now foot.now is_between text.items) }
{
    if !is_between {
        return Ok(text);
    }
    let mut all = Vec::new(alloc);
    all.extend_from_slice(head.as_bytes())?;
    all.extend_from_slice(&text)?;
    all.extend_from_slice(foot.as_bytes())?;
    Ok(all)
}

/// What is written: the picture between the head and the foot of a page, or alone.
pub(crate) fn page_of(alloc: Global, is_page: bool, picture: Vec<u8>) -> Result<Vec<u8>, Memory>
    ensures { IfOk result (λ text. text.items
        ≡ page_of PAGE_HEAD.now PAGE_FOOT.now is_page picture.items) }
{
    between(alloc, PAGE_HEAD, PAGE_FOOT, is_page, picture)
}
