//! What a page has in it whatever the run: how it looks, and the script that steps through it.

/// How a page looks: the picture beside the state, each of which scrolls where it has too little room; in a narrow window one below
/// the other.
pub const PAGE_LOOKS: &str = "<style>
:root{color-scheme:light dark}
body{font:13px monospace;margin:8px;background:#fff;color:#222}
main{display:flex;gap:24px;align-items:flex-start}
#picture,#state{max-height:96vh;overflow:auto}
#picture{flex:0 1 auto;max-width:calc(55% - 24px)}
#state{flex:1 1 0;min-width:45%}
#controls{position:sticky;top:0;background:#fff;padding:4px 0}
#at{width:100%;margin:0}
#keys{margin:4px 0}
#told{display:block;white-space:pre-wrap;min-height:3em;max-width:72ch}
table{display:inline-table;vertical-align:top;border-collapse:collapse;margin:0 16px 12px 0}
caption{text-align:left;font-weight:bold;padding:2px 0}
th,td{border:1px solid #999;padding:1px 4px;text-align:right;font-weight:normal}
td.text,td.valid,td.stale,th.text{text-align:left}
td[data-new]{outline:2px solid #25a}
td.stale{background:#fdd}
td.stale~td{color:#888}
td.dirty{font-weight:bold;background:#ffd}
#here{fill:#25a;fill-opacity:.15}
@media screen and (prefers-color-scheme:dark){
body,#controls{background:#181818;color:#ddd}
th,td{border-color:#777}
td.stale{background:#522}
td.stale~td{color:#999}
td.dirty{background:#440;color:#ddd}
td[data-new]{outline-color:#8bf}
#here{fill:#8bf;fill-opacity:.25}
}
@media screen and (max-width:900px){
main{flex-wrap:wrap}
#picture{max-width:100%}
#state{flex-basis:100%}
}
@media print{
#at,#keys{display:none}
main{display:block}
#picture,#state{max-width:none;max-height:none;overflow:visible}
}
</style>
";

/// The script of a page. Each step is a list of cells, each with its new text, null where that stays, and its looks, and a 0 at
/// its end. What stood there before is kept, to step back.
pub const PAGE_SCRIPT: &str = "<script>
\"use strict\";
const steps = JSON.parse(document.getElementById(\"steps\").textContent);
const slider = document.getElementById(\"at\");
const told = document.getElementById(\"told\");
const { first: number, opening } = document.getElementById(\"steps\").dataset;
// The number of the first step: those of the opening stand before the first event.
const first = number - opening;
const here = document.createElementNS(\"http://www.w3.org/2000/svg\", \"rect\");
const rows = new Map();
const undone = [];

here.id = \"here\";
here.setAttribute(\"width\", \"100%\");
here.setAttribute(\"height\", 24);
document.querySelector(\"svg .page\").after(here);
for (const number of document.querySelectorAll(\"svg text.number\")) {
  rows.set(Number(number.textContent), number);
}

// Gives a cell its new text and looks, and answers what it had.
function put([name, text, looks]) {
  const cell = document.getElementById(name);
  if (!cell) return null;
  const old = [name, cell.textContent, cell.className];
  if (text !== null) cell.textContent = text;
  cell.className = looks;
  return old;
}

function forward() {
  undone.push(steps[undone.length].slice(0, -1).map(put));
}

function back() {
  for (const old of undone.pop().reverse()) if (old) put(old);
}

// Tells the last event, and marks its row and what it changed.
function tell(number) {
  for (const cell of document.querySelectorAll(\"td[data-new]\")) cell.removeAttribute(\"data-new\");
  for (const old of undone.at(-1) ?? []) if (old) document.getElementById(old[0]).dataset.new = \"\";

  const row = rows.get(number - 1);
  here.setAttribute(\"y\", row ? row.getAttribute(\"y\") - 12 : -99);
  if (row) row.scrollIntoView({ block: \"nearest\" });
  const what = row ? row.parentNode.querySelector(\"title\").textContent : `event ${number - 1}`;
  told.textContent = undone.length > opening ? `after ${what}` : \"before the first event\";
}

// Shows the state before the event of this number.
function show(number) {
  const count = Math.min(Math.max(number, Number(slider.min)), Number(slider.max)) - first;
  while (undone.length < count) forward();
  while (undone.length > count) back();
  slider.value = count + first;
  tell(count + first);
}

const keys = {
  ArrowRight: (n) => n + 1, ArrowDown: (n) => n + 1, PageDown: (n) => n + 10,
  ArrowLeft: (n) => n - 1, ArrowUp: (n) => n - 1, PageUp: (n) => n - 10,
  Home: () => Number(slider.min), End: () => Number(slider.max),
};

document.addEventListener(\"keydown\", (event) => {
  const step = keys[event.key];
  if (!step || event.altKey || event.ctrlKey || event.metaKey) return;
  event.preventDefault();
  show(step(first + undone.length));
});
slider.addEventListener(\"input\", () => show(Number(slider.value)));

function opened() {
  show(location.hash ? Number(location.hash.slice(1)) || 0 : Number(slider.min));
}

addEventListener(\"hashchange\", opened);
opened();
</script>
";
