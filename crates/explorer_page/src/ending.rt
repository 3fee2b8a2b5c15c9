// The second half of what draws, and the end, as tools/explorer-page/run makes it of examples/explorer.
ghost use Rattle.std.specs.Prelude.{OnOk};
ghost use Rattle.std.specs.Io.KnownBytes.{Appends};
ghost use Rattle.explorer_page.specs.Texts.{ending_1, ending_2, ending_3, ending_4, ending_5, ending_text};

use crate::lines::print_lines;
use messages::Unwritten;
use std::io::Write;

pub const ENDING_1: &[&str] = &[
    "element(\"log\").innerHTML = `<p>Header, block ${LOG}: <b>n ${count}</b>${count ? \"\" : \", so recovery does nothing\"}</p>`",
    "+ (count ? `<table><tr><th>log block</th><th>home</th><th></th></tr>${rows.join(\"\")}</table>`",
    "+ '<p class=\"quiet\">Recovery copies each home and empties the header.</p>'",
    ": '<p class=\"quiet\">What stands in the blocks behind it is read by nobody.</p>');",
    "}",
    "function showRecovered({ wrong, kept, after }) {",
    "const verdict = wrong ? `<div class=\"verdict is-bad\"><span class=\"bad\">\\u2717 ${escaped(wrong)}</span></div>`",
    ": `<div class=\"verdict is-good\"><span class=\"good\">\\u2713 sound</span>, with exactly the first ${counted(kept, \"group\")}</div>`;",
    "const files = after ? run.filesIn(after) : [];",
    "const listed = files.slice(0, 8).map(({ number, kind, bytes }) => `<tr><td>${number}</td><td>${KINDS[kind] || kind}</td>`",
    "+ `<td>${bytes.length}</td><td class=\"bytes\">${escaped(printable(bytes.slice(0, 18)))}${bytes.length > 18 ? \"\\u2026\" : \"\"}</td></tr>`);",
    "const table = listed.length ? `<table><tr><th>file</th><th>type</th><th>bytes</th><th>content</th></tr>${listed.join(\"\")}</table>` : \"<p>No file.</p>\";",
    "const next = operations.findIndex(({ answer }) => !answer || answer.step > at);",
    "const first = Math.max(0, Math.min((next < 0 ? operations.length : next) - 4, operations.length - 7));",
    "const rows = operations.slice(first, first + 7).map(({ line, process, answer }) => {",
    "const group = answer ? answer.group : 0;",
    "const state = wrong ? \"?\" : group && group <= kept ? '<span class=\"good\">\\u2713 kept</span>' : group ? '<span class=\"quiet\">lost</span>' : \"\";",
    "const told = !answer ? \"\" : answer.step <= at ? \"yes\" : '<span class=\"quiet\">not yet</span>';",
    "return `<tr><td>${state}</td><td>${process}</td><td class=\"${operations.length > 6 ? \"long\" : \"words\"}\">${escaped(operationWords(line))}</td><td>${group || \"\"}</td><td>${told}</td></tr>`;",
    "});",
    "element(\"recovered\").innerHTML = verdict + table",
    "+ `<table><tr><th></th><th>process</th><th>operation</th><th>group</th><th>answered</th></tr>${rows.join(\"\")}</table>`;",
    "}",
    "function inodeChanges(number, old, now) {",
    "const found = [];",
    "const kinds = [old, now].map((inode) => KINDS[number16(inode, 0)] || number16(inode, 0));",
    "if (kinds[0] !== kinds[1]) found.push(`type ${kinds[0]} \\u2192 ${kinds[1]}`);",
    "if (number16(old, 6) !== number16(now, 6)) found.push(`links ${number16(old, 6)} \\u2192 ${number16(now, 6)}`);",
    "if (number32(old, 8) !== number32(now, 8)) found.push(`size ${number32(old, 8)} \\u2192 ${number32(now, 8)}`);",
    "for (let place = 0; place < 13; place++) {",
];

pub const ENDING_2: &[&str] = &[
    "const [before, after] = [old, now].map((inode) => number32(inode, 12 + 4 * place));",
    "if (before !== after) found.push(`address ${place}: ${before} \\u2192 ${after}`);",
    "}",
    "return found.length ? [`inode ${number}: ${found.join(\", \")}`] : [];",
    "}",
    "function bitChanges(old, now) {",
    "const set = [];",
    "const cleared = [];",
    "for (let bit = 0; bit < run.size; bit++) {",
    "const [was, is] = [old, now].map((block) => (block[bit >> 3] >> (bit % 8)) & 1);",
    "if (is && !was) set.push(bit);",
    "if (was && !is) cleared.push(bit);",
    "}",
    "return [...(set.length ? [`bits set: ${set.join(\", \")}`] : []), ...(cleared.length ? [`bits cleared: ${cleared.join(\", \")}`] : [])];",
    "}",
    "function changeWords(block, old, now) {",
    "if (block === LOG) return [`header: n ${number32(old, 0)} \\u2192 ${number32(now, 0)}`];",
    "if (block === run.bitmap) return bitChanges(old, now);",
    "if (block < INODES || block > run.bitmap) return [];",
    "const found = [];",
    "for (let place = 0; place < 16; place++) {",
    "const [before, after] = [old, now].map((bytes) => bytes.subarray(64 * place, 64 * place + 64));",
    "found.push(...inodeChanges((block - INODES) * 16 + place, before, after));",
    "}",
    "return found;",
    "}",
    "function changedRows(old, now) {",
    "const rows = [];",
    "for (let row = 0; row < BLOCK && rows.length < 6; row += 16) {",
    "const bytes = Array.from(now.subarray(row, row + 16));",
    "if (!bytes.some((byte, place) => byte !== old[row + place])) continue;",
    "const hex = bytes.map((byte, place) => {",
    "const text = byte.toString(16).padStart(2, \"0\");",
    "return byte === old[row + place] ? text : `<u>${text}</u>`;",
    "});",
    "rows.push(`${row.toString(16).padStart(3, \"0\")}  ${hex.join(\" \")}  ${escaped(printable(bytes))}\\n`);",
    "}",
    "return rows.join(\"\") || \"no byte differs from what was there\\n\";",
    "}",
    "function showChange(written, made) {",
    "if (!made) {",
    "element(\"changed\").textContent = \"This step writes nothing\";",
    "element(\"bytes\").innerHTML = '<p class=\"quiet\">The disk is as after the write before.</p>';",
    "return;",
    "}",
    "const { write } = made;",
    "const before = run.imageWith(written.slice(0, -1));",
    "const words = changeWords(write.block, before[write.block], write.bytes);",
    "let home = \"\";",
    "if (write.part === \"log\") {",
    "const block = Number(/of (\\d+)/.exec(write.what)[1]);",
    "home = `, a log block for the home ${block}`;",
    "words.push(...changeWords(block, before[block], write.bytes).map((text) => `${text} (against the home)`));",
    "}",
    "element(\"changed\").textContent = `What this write changed in block ${write.block}${home}`;",
    "element(\"bytes\").innerHTML = (words.length ? `<ul>${words.map((text) => `<li>${escaped(text)}</li>`).join(\"\")}</ul>` : \"\")",
    "+ `<div class=\"bytes\">${changedRows(before[write.block], write.bytes)}</div>`;",
    "}",
];

pub const ENDING_3: &[&str] = &[
    "function show() {",
    "at = Math.min(steps.length - 1, Math.max(-1, at));",
    "const written = run.writtenBy(at);",
    "const made = at >= 0 ? run.plan[at] : null;",
    "const newer = newerBlocks(written);",
    "showHeld(written);",
    "const found = run.judge(written, at, lost);",
    "element(\"at\").value = at + 1;",
    "element(\"place\").textContent = `step ${at + 1} of ${steps.length}, ${counted(written.length, \"write\")} made`;",
    "element(\"said\").textContent = sayStep(made);",
    "element(\"tried\").textContent = isTried() ? `Tried by the program: ${triedWords(at)}.` : \"\";",
    "showLine();",
    "showMemory(newer);",
    "showBlocks(found.image, made, newer);",
    "showLog(found.image);",
    "showRecovered(found);",
    "showChange(written, made);",
    "}",
    "function refresh() {",
    "run.choose(order, holding);",
    "survey = run.survey();",
    "draw();",
    "show();",
    "}",
    "function go(to) {",
    "at = to;",
    "lost.clear();",
    "show();",
    "}",
    "function goToWrite(isOn) {",
    "const places = [-1, ...steps.map((_, step) => step).filter((step) => run.plan[step])];",
    "const found = isOn ? places.find((step) => step > at) : places.filter((step) => step < at).pop();",
    "go(found === undefined ? (isOn ? steps.length - 1 : -1) : found);",
    "}",
    "function addChoices(box, words, now, choose) {",
    "for (const [key, text] of Object.entries(words)) {",
    "const label = document.createElement(\"label\");",
    "label.innerHTML = `<input type=\"radio\" name=\"${box}\" value=\"${key}\"${now === key ? \" checked\" : \"\"}> ${escaped(text)}`;",
    "label.firstChild.onchange = () => {",
    "choose(key);",
    "lost.clear();",
    "refresh();",
    "};",
    "element(box).append(label);",
    "}",
    "}",
    "function addQuestion(asking) {",
    "const details = document.createElement(\"details\");",
    "details.innerHTML = `<summary>${escaped(asking.question)}</summary><p class=\"quiet\">${escaped(asking.answer)} <button>show</button></p>`;",
    "details.querySelector(\"button\").onclick = () => {",
    "order = asking.order || \"log\";",
    "holding = asking.holding || \"no\";",
    "for (const [box, value] of [[\"orders\", order], [\"holdings\", holding]]) {",
    "for (const input of element(box).querySelectorAll(\"input\")) input.checked = input.value === value;",
    "}",
    "at = asking.step - 1;",
    "lost.clear();",
    "refresh();",
    "if (asking.loses && survey[at].wrong) loseWorst();",
    "};",
    "element(\"questions\").append(details);",
    "}",
    "function addRuns() {",
    "RUNS.forEach(({ title }, index) => {",
    "const option = document.createElement(\"option\");",
    "option.value = index;",
    "option.textContent = `${index + 1}. ${title}`;",
    "option.selected = index === chosen;",
    "element(\"runs\").append(option);",
    "});",
    "element(\"runs\").hidden = RUNS.length < 2;",
    "element(\"runs\").onchange = () => {",
    "location.hash = \"run=\" + element(\"runs\").value;",
    "location.reload();",
    "};",
    "}",
    "let timer = 0;",
    "function play() {",
    "if (timer) {",
    "clearInterval(timer);",
    "timer = 0;",
];

pub const ENDING_4: &[&str] = &[
    "element(\"play\").textContent = \"\\u25b6 play\";",
    "return;",
    "}",
    "if (at >= steps.length - 1) at = -1;",
    "element(\"play\").textContent = \"\\u275a\\u275a pause\";",
    "timer = setInterval(() => (at >= steps.length - 1 ? play() : go(at + 1)), matchMedia(\"(prefers-reduced-motion: reduce)\").matches ? 1500 : 600);",
    "}",
    "function onKey(event) {",
    "const isAtChoice = event.target.matches(\"input[type=radio], input[type=checkbox], select\");",
    "const moves = {",
    "ArrowRight: () => go(at + 1), ArrowLeft: () => go(at - 1), Home: () => go(-1), End: () => go(steps.length - 1),",
    "PageDown: () => goToWrite(true), PageUp: () => goToWrite(false),",
    "};",
    "if (isAtChoice || !moves[event.key] || (event.target.id === \"at\" && /Arrow|Home|End/.test(event.key))) return;",
    "moves[event.key]();",
    "event.preventDefault();",
    "}",
    "function triedFoot(differing) {",
    "const images = run.told.tried.reduce((sum, stop) => sum + stop.images, 0);",
    "const failed = run.told.tried.find((stop) => stop.why);",
    "const found = `The program tried ${counted(run.told.tried.length, \"stop\")}: ${counted(images, \"image\")} passed${failed ? `, and then one didn't: ${failed.why}` : \"\"}.`;",
    "return `${found} The page's own recovery ${differing ? `finds something else at ${differing} of them!` : \"finds the same at each.\"}`;",
    "}",
    "function footWords(differing) {",
    "const stops = run.writes.length + 1;",
    "if (differing) return `The page's recovery differs from the program's at ${counted(differing, \"stop\")} of ${stops}!`;",
    "const files = run.told.version ? \"that xvfs recover, ls and cat tell\" : \"by number, type and length, that the program's recovery gives\";",
    "return `At all ${stops} stops the recovered image is sound by the page's own check, too, with the files${run.told.version ? \"\" : \",\"} ${files}.`;",
    "}",
    "addRuns();",
    "addChoices(\"orders\", ORDER_WORDS, order, (key) => (order = key));",
    "addChoices(\"holdings\", HOLDING_WORDS, holding, (key) => (holding = key));",
    "(run.told.questions || []).forEach(addQuestion);",
    "element(\"title\").textContent = tried.size ? \"A run at each of its stops\" : run.told.title;",
    "element(\"about\").textContent = `${counted(run.writes.length, \"write\")}, ${counted(steps.length, \"step\")}, ${run.size} blocks. Move the line: \\u2190 \\u2192 a step, Page Up, Page Down a write.`;",
    "element(\"at\").max = steps.length;",
    "element(\"at\").oninput = () => go(Number(element(\"at\").value) - 1);",
    "element(\"back\").onclick = () => goToWrite(false);",
    "element(\"on\").onclick = () => goToWrite(true);",
    "element(\"play\").onclick = play;",
    "addEventListener(\"keydown\", onKey);",
    "addEventListener(\"resize\", () => {",
    "draw();",
    "show();",
    "});",
    "refresh();",
    "const differing = differingStops(run.told);",
];

pub const ENDING_5: &[&str] = &[
    "const differingFound = tried.size ? differingTried(run.told) : 0;",
    "element(\"foot\").textContent = (run.told.version ? `${run.told.version}. Schedule: ${run.told.schedule}. ` : \"\")",
    "+ (tried.size ? `${triedFoot(differingFound)} ` : \"\") + footWords(differing);",
    "document.body.dataset.differing = differing + differingFound;",
    "</script>",
    "</body>",
    "</html>",
];

#[tactic(auto, unfolding(crate::specs::Texts::ending_1))]
fn print_ending_1<O: Write>(out: &mut O) -> Result<(), Unwritten>
    ensures ok { OnOk result (Appends (O.contents out.old) (O.contents out.new) ending_1) }
{
    print_lines(out, ENDING_1)
}

#[tactic(auto, unfolding(crate::specs::Texts::ending_2))]
fn print_ending_2<O: Write>(out: &mut O) -> Result<(), Unwritten>
    ensures ok { OnOk result (Appends (O.contents out.old) (O.contents out.new) ending_2) }
{
    print_lines(out, ENDING_2)
}

#[tactic(auto, unfolding(crate::specs::Texts::ending_3))]
fn print_ending_3<O: Write>(out: &mut O) -> Result<(), Unwritten>
    ensures ok { OnOk result (Appends (O.contents out.old) (O.contents out.new) ending_3) }
{
    print_lines(out, ENDING_3)
}

#[tactic(auto, unfolding(crate::specs::Texts::ending_4))]
fn print_ending_4<O: Write>(out: &mut O) -> Result<(), Unwritten>
    ensures ok { OnOk result (Appends (O.contents out.old) (O.contents out.new) ending_4) }
{
    print_lines(out, ENDING_4)
}

#[tactic(auto, unfolding(crate::specs::Texts::ending_5))]
fn print_ending_5<O: Write>(out: &mut O) -> Result<(), Unwritten>
    ensures ok { OnOk result (Appends (O.contents out.old) (O.contents out.new) ending_5) }
{
    print_lines(out, ENDING_5)
}

#[tactic(auto, unfolding(crate::specs::Texts::ending_text))]
pub fn print_ending<O: Write>(out: &mut O) -> Result<(), Unwritten>
    ensures ok { OnOk result (Appends (O.contents out.old) (O.contents out.new) ending_text) }
{
    print_ending_1(out)?;
    print_ending_2(out)?;
    print_ending_3(out)?;
    print_ending_4(out)?;
    print_ending_5(out)
}
