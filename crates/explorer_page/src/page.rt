// The first half of what draws, as tools/explorer-page/run makes it of examples/explorer.
ghost use Rattle.std.specs.Prelude.{OnOk};
ghost use Rattle.std.specs.Io.KnownBytes.{Appends};
ghost use Rattle.explorer_page.specs.Texts.{page_1, page_2, page_3, page_4, page_5, page_text};

use crate::lines::print_lines;
use messages::Unwritten;
use std::io::Write;

pub const PAGE_1: &[&str] = &[
    "\"use strict\";",
    "const DATA = document.getElementById(\"data\").textContent.trim();",
    "const RUNS = DATA.startsWith(\"[\") ? JSON.parse(DATA) : [toldBy(DATA)];",
    "const asked = new URLSearchParams(location.hash.slice(1));",
    "const chosen = Math.min(RUNS.length - 1, Math.max(0, Number(asked.get(\"run\")) || 0));",
    "const run = new Run(RUNS[chosen]);",
    "const steps = run.told.steps;",
    "const processes = steps.reduce((most, step) => Math.max(most, step.process + 1), 1);",
    "const ORDER_WORDS = {",
    "log: \"as xvfs: log, header, homes, clear\",",
    "homes: \"homes before header\",",
    "header: \"header before log\",",
    "none: \"no log: homes at once\",",
    "};",
    "const HOLDING_WORDS = {",
    "no: \"writes in order\",",
    "synced: \"holds writes back, synced after each part\",",
    "never: \"holds writes back, never synced\",",
    "};",
    "const PART_WORDS = { log: \"log\", header: \"HEADER\", home: \"home\", clear: \"clear\" };",
    "const PART_LETTERS = { log: \"L\", header: \"H\", home: \"h\", clear: \"c\" };",
    "const KINDS = [\"free\", \"directory\", \"file\", \"device\"];",
    "let order = ORDER_WORDS[asked.get(\"order\")] ? asked.get(\"order\") : \"log\";",
    "const ownHolding = run.told.holds ? \"synced\" : \"no\";",
    "let holding = HOLDING_WORDS[asked.get(\"disk\")] ? asked.get(\"disk\") : ownHolding;",
    "let at = asked.has(\"step\") ? Number(asked.get(\"step\")) - 1 : 0;",
    "let lost = new Set();",
    "let survey = [];",
    "let width = 0;",
    "let em = 0;",
    "const tried = new Map((run.told.tried || []).map((stop) => [stop.name, stop]));",
    "const names = run.stopNames();",
    "const element = (id) => document.getElementById(id);",
    "const escaped = (text) => String(text).replace(/[&<>\"]/g, (sign) => ({ \"&\": \"&amp;\", \"<\": \"&lt;\", \">\": \"&gt;\", '\"': \"&quot;\" })[sign]);",
    "const printable = (bytes) => Array.from(bytes, (byte) => (byte > 31 && byte < 127 ? String.fromCharCode(byte) : \"\\u00b7\")).join(\"\");",
    "const counted = (count, word) => `${count} ${word}${count === 1 ? \"\" : \"s\"}`;",
    "function roleOf(block) {",
    "if (block === 0) return \"b\";",
    "if (block === 1) return \"s\";",
    "if (block < INODES) return \"l\";",
    "if (block < run.bitmap) return \"i\";",
    "return block === run.bitmap ? \"m\" : null;",
    "}",
    "function nameOf(block) {",
    "return { b: \"boot\", s: \"superblock\", l: \"log\", i: \"inodes\", m: \"bitmap\" }[roleOf(block)] || \"data\";",
    "}",
    "function kindOf(step) {",
    "if (run.plan[step]) return run.plan[step].write.part;",
    "const deed = steps[step].deed;",
    "if (/sleep|idle/.test(deed)) return \"waits\";",
    "if (/^(log|header|home|clear)/.test(deed)) return \"nothing\";",
    "return /^(begin|end)/.test(deed) ? \"begins\" : \"moves\";",
    "}",
    "function wordOf(step) {",
    "if (run.plan[step]) return PART_WORDS[run.plan[step].write.part];",
    "return kindOf(step) === \"nothing\" ? \"\\u2013\" : steps[step].deed.replace(/ by .*/, \"\");",
    "}",
];

pub const PAGE_2: &[&str] = &[
    "function drawStep(step, lane) {",
    "const kind = kindOf(step);",
    "const left = step * width;",
    "const top = 0.7 * em + steps[step].process * lane;",
    "const isLine = kind === \"waits\" || kind === \"nothing\";",
    "const fill = isLine ? \"none\" : `var(--${kind})`;",
    "const light = /header|home/.test(kind) ? \" light\" : /log|clear/.test(kind) ? \" dark\" : \"\";",
    "let drawn = `<rect x=\"${left + 0.5}\" y=\"${top}\" width=\"${Math.max(width - 1, 1)}\" height=\"${lane - 0.6 * em}\" fill=\"${fill}\"`",
    "+ ` stroke=\"var(--quiet)\" stroke-width=\"${width > 6 || (isLine && width > 2) ? 0.6 : 0}\"${isLine ? ' stroke-dasharray=\"3 2\"' : \"\"}>`",
    "+ `<title>step ${step + 1}, process ${steps[step].process}: ${escaped(wordOf(step))}</title></rect>`;",
    "const text = width > 3 * em ? escaped(wordOf(step)) : width > em ? PART_LETTERS[kind] : \"\";",
    "if (text) drawn += `<text class=\"middle${light}\" x=\"${left + width / 2}\" y=\"${top + 0.92 * em}\">${text}</text>`;",
    "return drawn;",
    "}",
    "const isTried = () => tried.size > 0 && order === \"log\" && holding === ownHolding;",
    "function triedWords(step) {",
    "const name = names[step + 1];",
    "const stop = tried.get(name);",
    "const where = name === \"end\" ? \"the whole run\" : name.startsWith(\"sync\") ? `a stop at ${name}` : `a stop before ${name}`;",
    "if (!stop) return `${where}: not tried`;",
    "return stop.why ? `${where}: ${stop.why}` : `${where}: ${counted(stop.images, \"image\")} passed`;",
    "}",
    "function verdictOf(step) {",
    "if (!isTried()) return survey[step].wrong ? \"bad\" : \"good\";",
    "const stop = tried.get(names[step + 1]);",
    "return !stop ? \"quiet\" : stop.why ? \"bad\" : \"good\";",
    "}",
    "function drawStretch(from, to, top) {",
    "const verdict = verdictOf(from);",
    "const left = from * width;",
    "const wide = (to - from) * width;",
    "const { kept } = survey[from];",
    "const isBad = verdict === \"bad\";",
    "const said = wide > 13 * em ? `\\u2713 a stop here keeps ${counted(kept, \"group\")}` : wide > 6 * em ? `\\u2713 keeps ${kept}` : wide > 3 * em ? `\\u2713 ${kept}` : wide > em ? \"\\u2713\" : \"\";",
    "const text = { good: kept === undefined ? \"\\u2713\" : said, bad: wide > 5 * em ? \"\\u2717 broken\" : wide > em ? \"\\u2717\" : \"\", quiet: wide > em ? \"?\" : \"\" }[verdict];",
    "const title = isTried() ? `<title>${escaped(triedWords(from))}</title>` : \"\";",
    "const fill = { good: \"good-back\", bad: \"bad\", quiet: \"meta\" }[verdict];",
    "return `<g>${title}<rect x=\"${left}\" y=\"${top}\" width=\"${isBad ? Math.max(wide, 2) : wide}\" height=\"${1.5 * em}\" fill=\"var(--${fill})\"`",
    "+ ` stroke=\"var(--${verdict})\" stroke-width=\"${wide > 4 ? 1 : 0}\"/>`",
    "+ `<text class=\"middle${isBad ? \" broken\" : \"\"}\" x=\"${left + wide / 2}\" y=\"${top + 1.05 * em}\">${text}</text></g>`;",
    "}",
    "function isAlike(one, other) {",
];

pub const PAGE_3: &[&str] = &[
    "if (isTried()) return names[one + 1] === names[other + 1];",
    "return !survey[one].wrong === !survey[other].wrong && survey[one].kept === survey[other].kept;",
    "}",
    "function drawBand(top) {",
    "let sound = \"\";",
    "let broken = \"\";",
    "let from = 0;",
    "for (let step = 1; step <= survey.length; step++) {",
    "if (step < survey.length && isAlike(from, step)) continue;",
    "if (verdictOf(from) === \"bad\") broken += drawStretch(from, step, top);",
    "else sound += drawStretch(from, step, top);",
    "from = step;",
    "}",
    "return sound + broken;",
    "}",
    "function draw() {",
    "em = parseFloat(getComputedStyle(document.body).fontSize);",
    "const lane = 1.8 * em;",
    "const beside = 5.2 * em;",
    "width = Math.max((element(\"steps\").clientWidth - beside) / Math.max(steps.length, 1), steps.length > 42 ? 0 : 1.5 * em);",
    "const band = 0.9 * em + processes * lane;",
    "const wide = width * steps.length;",
    "let drawn = `<svg width=\"${wide + beside}\" height=\"${band + 3.1 * em}\" role=\"img\" aria-label=\"${counted(steps.length, \"step\")}, from`",
    "+ ` left to right, a lane a process; below, what recovery makes of a stop behind each step\">`;",
    "for (let process = 0; process < processes; process++) {",
    "drawn += `<text x=\"${wide + 0.3 * em}\" y=\"${1.6 * em + process * lane}\">process ${process}</text>`;",
    "}",
    "for (const isWrite of [false, true]) {",
    "for (let step = 0; step < steps.length; step++) if (isWrite === (run.plan[step] !== null)) drawn += drawStep(step, lane);",
    "}",
    "drawn += drawBand(band) + `<path id=\"line\" d=\"M0 0V${band + 1.8 * em}\" stroke=\"var(--text)\" stroke-width=\"2.5\"/>`",
    "+ `<text id=\"line-text\" class=\"middle\" y=\"${band + 2.7 * em}\"></text></svg>`;",
    "element(\"steps\").innerHTML = drawn;",
    "element(\"steps\").firstChild.onclick = (event) => {",
    "const left = event.currentTarget.getBoundingClientRect().left;",
    "go(Math.floor((event.clientX - left) / width));",
    "};",
    "}",
    "function showLine() {",
    "const left = (at + 1) * width;",
    "const line = element(\"line\");",
    "line.setAttribute(\"d\", line.getAttribute(\"d\").replace(/^M[\\d.]+/, \"M\" + left));",
    "const text = element(\"line-text\");",
    "text.setAttribute(\"x\", Math.min(Math.max(left, 3 * em), width * steps.length - 3 * em));",
    "text.textContent = at < 0 ? \"stop at once\" : \"stop here\";",
    "const drawn = element(\"steps\");",
    "if (width * steps.length > drawn.clientWidth) drawn.scrollLeft = left - drawn.clientWidth / 2;",
    "}",
    "function sayStep(made) {",
    "if (at < 0) return \"Nothing was done yet.\";",
    "const who = `Step ${at + 1}: process ${steps[at].process}`;",
    "if (!made) return `${who}: ${escaped(steps[at].deed)}. Nothing is written.`;",
    "const what = {",
    "log: \"a changed block, into the log\",",
    "header: `the header: this one write commits group ${made.commit.group}`,",
    "home: \"a block, to its home\",",
];

pub const PAGE_4: &[&str] = &[
    "clear: \"the empty header\",",
    "}[made.write.part];",
    "return `${who} writes block ${made.write.block}: ${what}.`;",
    "}",
    "function showHeld(written) {",
    "const held = run.heldAmong(written, at);",
    "for (const index of [...lost]) if (!held.some(({ write }) => write.index === index)) lost.delete(index);",
    "const box = element(\"held\");",
    "box.innerHTML = \"\";",
    "if (!held.length) return;",
    "const chips = held.map(({ write }) => `<label class=\"chip\"><input type=\"checkbox\" value=\"${write.index}\"`",
    "+ `${lost.has(write.index) ? \"\" : \" checked\"}> ${write.part} \\u2192 block ${write.block}</label>`);",
    "const { wrong, tried: choices } = survey[Math.max(at, 0)];",
    "box.innerHTML = `<b>May be lost</b> (untick those that didn't get through): ${chips.join(\"\")} `",
    "+ (wrong ? '<button id=\"find\">show a choice that breaks it</button>' : `<span class=\"good\">\\u2713 all ${choices} choices recover</span>`);",
    "for (const input of box.querySelectorAll(\"input\")) {",
    "input.onchange = () => {",
    "if (input.checked) lost.delete(Number(input.value));",
    "else lost.add(Number(input.value));",
    "show();",
    "};",
    "}",
    "if (wrong) element(\"find\").onclick = () => loseWorst();",
    "}",
    "function loseWorst() {",
    "lost = new Set(survey[at].lost);",
    "show();",
    "}",
    "function operationWords(line) {",
    "const [, verb, file, offset, value, byte] = line.split(\" \");",
    "if (verb === \"create\") return `create a ${KINDS[Number(file)] || file}`;",
    "if (verb === \"write\") {",
    "const text = value === \"-\" ? \"\" : printable(bytesOf(value));",
    "return `write file ${file} at ${offset}: \\u201c${text.length > 14 ? text.slice(0, 14) + \"\\u2026\" : text}\\u201d`;",
    "}",
    "if (verb === \"fill\") return `write file ${file} at ${offset}: ${value} times \\u201c${printable(bytesOf(byte))}\\u201d`;",
    "return `${verb} file ${file}`;",
    "}",
    "const answers = run.told.turns.filter((turn) => turn.came === \"answered\").map((turn) => {",
    "const [place, group] = turn.more.split(\" \").map(Number);",
    "return { process: turn.process, place, group, step: turn.to - 1 };",
    "});",
    "function readOperations() {",
    "const found = new Map(answers.map((answer) => [`${answer.process} ${answer.place}`, answer]));",
    "const counts = new Map();",
    "return run.told.script.map((line) => {",
    "const process = Number(line.split(\" \")[0]);",
    "counts.set(process, (counts.get(process) || 0) + 1);",
    "return { line, process, answer: found.get(`${process} ${counts.get(process)}`) };",
    "});",
    "}",
    "const operations = readOperations();",
    "function underWay() {",
    "const found = [];",
    "for (let process = 0; process < processes; process++) {",
    "const begun = steps.slice(0, at + 1).filter((step) => step.process === process && step.deed === \"begin\").length;",
];

pub const PAGE_5: &[&str] = &[
    "const answered = answers.filter((answer) => answer.process === process && answer.step <= at).length;",
    "const line = run.told.script.filter((text) => Number(text.split(\" \")[0]) === process)[answered];",
    "if (line && begun > answered) found.push(`process ${process}: ${escaped(operationWords(line))}`);",
    "}",
    "return found;",
    "}",
    "function newerBlocks(written) {",
    "const ended = run.commits.filter((commit) => commit.steps[commit.steps.length - 1] <= at);",
    "const from = ended.length ? Math.max(...ended.map((commit) => commit.steps[commit.steps.length - 1])) + 1 : 0;",
    "const next = run.commits.find((commit) => commit.steps[commit.steps.length - 1] > at && commit.steps[0] >= from);",
    "if (!next) return [];",
    "const used = new Set();",
    "for (let step = from; step <= at; step++) {",
    "const found = /^use (\\d+)/.exec(steps[step].deed);",
    "if (found) used.add(Number(found[1]));",
    "}",
    "const homeAlready = new Set(written.filter(({ write, commit }) => commit === next && write.part === \"home\").map(({ write }) => write.block));",
    "return next.home.map((write) => write.block).filter((block) => used.has(block) && !homeAlready.has(block)).sort((a, b) => a - b);",
    "}",
    "function showMemory(newer) {",
    "const chips = newer.map((block) => `<span class=\"chip\">${block} ${nameOf(block)}</span>`).join(\"\");",
    "element(\"memory\").innerHTML = `<p>Under way: ${underWay().map((line) => \"<br>\" + line).join(\"\") || \"nothing\"}</p>`",
    "+ `<p>Changed blocks that the disk hasn't at home yet: ${chips ? \"<br>\" + chips : \"none\"}</p>`;",
    "}",
    "function showBlocks(image, made, newer) {",
    "const owners = run.ownersIn(image);",
    "element(\"blocks\").style.setProperty(\"--across\", run.size > 1024 ? 64 : run.size > 256 ? 32 : 16);",
    "element(\"blocks\").innerHTML = image.map((_, block) => {",
    "const owner = owners.get(block);",
    "const letter = roleOf(block) || (owner ? (owner.isAddresses ? \"a\" : String(owner.number % 10)) : \".\");",
    "const of = roleOf(block) === \"l\" ? \"of-log\" : owner ? \"of-file\" : letter === \".\" ? \"of-none\" : \"\";",
    "const just = made && made.write.block === block ? \" just\" : \"\";",
    "const name = owner ? `data of file ${owner.number}` : letter === \".\" ? \"free\" : nameOf(block);",
    "return `<b class=\"${of}${just}${newer.includes(block) ? \" newer\" : \"\"}\" title=\"block ${block}: ${name}\">${letter}</b>`;",
    "}).join(\"\");",
    "}",
    "function showLog(image) {",
    "const count = number32(image[LOG], 0);",
    "const homes = run.homesIn(image) || [];",
    "const rows = homes.map((home, place) => {",
    "const block = LOG + 1 + place;",
    "const isSame = image[block].every((byte, at) => byte === image[home][at]);",
    "return `<tr><td>${block}</td><td>\\u2192 ${home} ${nameOf(home)}</td><td>${isSame ? \"same\" : \"<b>differs</b>\"}</td></tr>`;",
    "});",
];

#[tactic(auto, unfolding(crate::specs::Texts::page_1))]
fn print_page_1<O: Write>(out: &mut O) -> Result<(), Unwritten>
    ensures ok { OnOk result (Appends (O.contents out.old) (O.contents out.new) page_1) }
{
    print_lines(out, PAGE_1)
}

#[tactic(auto, unfolding(crate::specs::Texts::page_2))]
fn print_page_2<O: Write>(out: &mut O) -> Result<(), Unwritten>
    ensures ok { OnOk result (Appends (O.contents out.old) (O.contents out.new) page_2) }
{
    print_lines(out, PAGE_2)
}

#[tactic(auto, unfolding(crate::specs::Texts::page_3))]
fn print_page_3<O: Write>(out: &mut O) -> Result<(), Unwritten>
    ensures ok { OnOk result (Appends (O.contents out.old) (O.contents out.new) page_3) }
{
    print_lines(out, PAGE_3)
}

#[tactic(auto, unfolding(crate::specs::Texts::page_4))]
fn print_page_4<O: Write>(out: &mut O) -> Result<(), Unwritten>
    ensures ok { OnOk result (Appends (O.contents out.old) (O.contents out.new) page_4) }
{
    print_lines(out, PAGE_4)
}

#[tactic(auto, unfolding(crate::specs::Texts::page_5))]
fn print_page_5<O: Write>(out: &mut O) -> Result<(), Unwritten>
    ensures ok { OnOk result (Appends (O.contents out.old) (O.contents out.new) page_5) }
{
    print_lines(out, PAGE_5)
}

#[tactic(auto, unfolding(crate::specs::Texts::page_text))]
pub fn print_page<O: Write>(out: &mut O) -> Result<(), Unwritten>
    ensures ok { OnOk result (Appends (O.contents out.old) (O.contents out.new) page_text) }
{
    print_page_1(out)?;
    print_page_2(out)?;
    print_page_3(out)?;
    print_page_4(out)?;
    print_page_5(out)
}
