// The page up to the lines of a run, as tools/explorer-page/run makes it of examples/explorer.
ghost use Rattle.std.specs.Prelude.{OnOk};
ghost use Rattle.std.specs.Io.KnownBytes.{Appends};
ghost use Rattle.explorer_page.specs.Texts.{opening_1, opening_2, opening_3, opening_text};

use crate::lines::print_lines;
use messages::Unwritten;
use std::io::Write;

pub const OPENING_1: &[&str] = &[
    "<!DOCTYPE html>",
    "<html lang=\"en\">",
    "<head>",
    "<meta charset=\"utf-8\">",
    "<meta name=\"viewport\" content=\"width=device-width, initial-scale=1\">",
    "<meta http-equiv=\"Content-Security-Policy\" content=\"default-src 'none'; script-src 'unsafe-inline'; style-src 'unsafe-inline'\">",
    "<title>xvfs: every stop of a run</title>",
    "<style>",
    ":root {",
    "--back: #fff; --text: #16191d; --quiet: #555d66; --line: #cfd4da; --panel: #f6f7f8;",
    "--log: #56b4e9; --header: #b8480a; --home: #0b5f9e; --clear: #9aa1a9; --moves: #e9e3d3; --begins: #d6e2f1;",
    "--good: #0f6b3c; --good-back: #d9f0e1; --bad: #b3261e; --bad-back: #fbdcd8; --marked: #fff0bd; --meta: #e4e6ea;",
    "}",
    "@media (prefers-color-scheme: dark) {",
    ":root {",
    "--back: #14171a; --text: #e8eaed; --quiet: #a3abb4; --line: #3a4149; --panel: #1c2025;",
    "--log: #6cc0f0; --header: #c2511a; --home: #2a6cb4; --clear: #9aa1a9; --moves: #4a4637; --begins: #34465c;",
    "--good: #6fd79b; --good-back: #173a27; --bad: #ff8a80; --bad-back: #4a1a17; --marked: #4a4018; --meta: #2a2f36;",
    "}",
    "}",
    "* { box-sizing: border-box; }",
    "body { margin: 0; padding: .9em 1.2em; font: clamp(14px, .55rem + .6vw, 24px)/1.35 system-ui, \"Segoe UI\", \"Liberation Sans\", Arial, sans-serif; color: var(--text); background: var(--back); }",
    "h1 { font-size: 1.3em; margin: 0; }",
    "h2 { font-size: .95em; margin: 0 0 .4em; }",
    "p { margin: .1em 0 .5em; }",
    ".quiet { color: var(--quiet); }",
    ".bytes, #place { font-family: ui-monospace, \"Liberation Mono\", Menlo, monospace; font-size: .9em; }",
    "header { display: flex; flex-wrap: wrap; gap: .2em 1.2em; align-items: baseline; }",
    "select, button { font: inherit; color: var(--text); background: var(--back); border: 1px solid var(--quiet); border-radius: 4px; padding: .2em .7em; cursor: pointer; max-width: 100%; white-space: nowrap; }",
    "fieldset { border: 0; padding: 0; margin: .3em 0 .2em; display: flex; flex-wrap: wrap; gap: .2em .9em; }",
    "legend { float: left; font-weight: 600; margin-right: .6em; }",
    "label { cursor: pointer; }",
    "#questions { display: grid; grid-template-columns: repeat(auto-fit, minmax(min(22em, 100%), 1fr)); gap: 0 1.2em; margin-top: .3em; }",
    "#questions summary { cursor: pointer; }",
    "#questions p { margin: 0 0 .3em 1em; }",
    "#steps { width: 100%; overflow-x: auto; border: 1px solid var(--line); background: var(--panel); }",
    "#steps svg { display: block; cursor: pointer; }",
    "svg text { fill: var(--text); font-size: .85em; }",
    "svg .middle { text-anchor: middle; }",
    "svg .light { fill: #fff; font-weight: 600; }",
    "svg .dark { fill: #16191d; font-weight: 600; }",
    "svg .broken { fill: var(--back); font-weight: 600; }",
    ".key { margin: .2em 0 0; }",
    ".key span { margin-right: .9em; white-space: nowrap; }",
];

pub const OPENING_2: &[&str] = &[
    ".key i, .quiet i { display: inline-block; width: .8em; height: .8em; margin-right: .3em; border: 1px solid var(--quiet); vertical-align: -1px; }",
    "i.begins { background: var(--begins); } i.moves { background: var(--moves); } i.log { background: var(--log); }",
    "i.header { background: var(--header); } i.home { background: var(--home); } i.clear { background: var(--clear); }",
    "i.waits { border-style: dashed; } i.just { outline: 2px solid var(--header); }",
    "#bar { display: flex; flex-wrap: wrap; gap: .3em .6em; align-items: center; margin: .5em 0; }",
    "#bar input { flex: 1; min-width: 120px; }",
    "#said { font-size: 1.15em; font-weight: 600; min-height: 1.4em; }",
    ".panels { display: grid; grid-template-columns: 0.85fr 1.1fr 0.95fr 2.1fr; gap: .6em; }",
    "section { border: 1px solid var(--line); border-radius: 6px; padding: .5em .65em; background: var(--panel); min-width: 0; }",
    "@media (max-width: 1000px) { .panels { grid-template-columns: 1fr 1fr; } }",
    "@media (max-width: 600px) { .panels { grid-template-columns: 1fr; } body { padding: 10px; } }",
    "#change { margin-top: .6em; }",
    "#blocks { display: grid; grid-template-columns: repeat(var(--across), 1fr); gap: 2px; max-height: 60vh; overflow: auto; }",
    "#blocks b { display: grid; aspect-ratio: 1; min-width: 0; place-items: center; font: 600 .75em/1 ui-monospace, \"Liberation Mono\", Menlo, monospace; background: var(--meta); border: 1px solid var(--line); }",
    "#blocks .of-log { background: color-mix(in srgb, var(--log) 35%, var(--back)); }",
    "#blocks .of-file { background: color-mix(in srgb, var(--good) 25%, var(--back)); }",
    "#blocks .of-none { background: var(--back); color: var(--quiet); }",
    "#blocks .just { outline: 3px solid var(--header); outline-offset: -1px; z-index: 1; }",
    "#blocks .newer, i.newer { background-image: repeating-linear-gradient(45deg, transparent 0 3px, var(--quiet) 3px 4px); }",
    ".chip { display: inline-block; padding: 0 .5em; margin: .1em .2em .1em 0; border: 1px solid var(--line); border-radius: .7em; background: var(--back); }",
    ".good { color: var(--good); font-weight: 700; }",
    ".bad { color: var(--bad); font-weight: 700; }",
    ".verdict { padding: .35em .6em; border-radius: 5px; margin-bottom: .4em; font-size: 1.1em; }",
    ".verdict.is-good { background: var(--good-back); }",
    ".verdict.is-bad { background: var(--bad-back); }",
    "table { border-collapse: collapse; width: 100%; margin-bottom: .4em; }",
    "td, th { text-align: left; padding: .05em .6em .05em 0; vertical-align: top; }",
    "td.words { overflow-wrap: anywhere; }",
    "td.long { width: 100%; max-width: 0; overflow: hidden; text-overflow: ellipsis; white-space: nowrap; }",
    "td:first-child { white-space: nowrap; }",
];

pub const OPENING_3: &[&str] = &[
    "th { font-weight: 600; color: var(--quiet); }",
    "ul { margin: 0; padding-left: 1.3em; }",
    ".bytes { white-space: pre; overflow-x: auto; }",
    ".bytes u { text-decoration: none; background: var(--marked); font-weight: 700; }",
    "</style>",
    "</head>",
    "<body>",
    "<header><h1 id=\"title\"></h1><select id=\"runs\" aria-label=\"another run\"></select><span class=\"quiet\" id=\"about\"></span></header>",
    "<div id=\"questions\"></div>",
    "<fieldset id=\"orders\"><legend>The commit</legend></fieldset>",
    "<fieldset id=\"holdings\"><legend>The disk</legend></fieldset>",
    "<div id=\"steps\"></div>",
    "<p class=\"key quiet\"><span><i class=\"begins\"></i>begin, end</span><span><i class=\"moves\"></i>in memory</span><span><i class=\"log\"></i>L log block</span><span><i class=\"header\"></i>H header: the commit</span><span><i class=\"home\"></i>h home</span><span><i class=\"clear\"></i>c empty header</span><span><i class=\"waits\"></i>waits</span></p>",
    "<div id=\"bar\">",
    "<button id=\"back\" title=\"the write before (Page Up)\">&#9664; write</button>",
    "<button id=\"play\">&#9654; play</button>",
    "<button id=\"on\" title=\"the next write (Page Down)\">write &#9654;</button>",
    "<input type=\"range\" id=\"at\" min=\"0\" value=\"0\" aria-label=\"where the run stops\">",
    "<span id=\"place\"></span>",
    "</div>",
    "<div id=\"said\" role=\"status\" aria-live=\"polite\"></div>",
    "<p class=\"quiet\" id=\"tried\"></p>",
    "<div id=\"held\"></div>",
    "<div class=\"panels\">",
    "<section><h2>Memory: lost</h2><div id=\"memory\"></div></section>",
    "<section><h2>Disk, as the stop leaves it</h2><div id=\"blocks\"></div><p class=\"quiet\">b boot, s super, l log, i inodes, m bitmap, 0&#8211;9 a file's data, a its addresses, . free.<br><i class=\"just\"></i>just written <i class=\"newer\"></i>newer in memory</p></section>",
    "<section><h2>Log</h2><div id=\"log\"></div></section>",
    "<section><h2>After recovery</h2><div id=\"recovered\"></div></section>",
    "</div>",
    "<section id=\"change\"><h2 id=\"changed\"></h2><div id=\"bytes\"></div></section>",
    "<p class=\"quiet\" id=\"foot\"></p>",
    "<script type=\"application/json\" id=\"data\">",
];

#[tactic(auto, unfolding(crate::specs::Texts::opening_1))]
fn print_opening_1<O: Write>(out: &mut O) -> Result<(), Unwritten>
    ensures ok { OnOk result (Appends (O.contents out.old) (O.contents out.new) opening_1) }
{
    print_lines(out, OPENING_1)
}

#[tactic(auto, unfolding(crate::specs::Texts::opening_2))]
fn print_opening_2<O: Write>(out: &mut O) -> Result<(), Unwritten>
    ensures ok { OnOk result (Appends (O.contents out.old) (O.contents out.new) opening_2) }
{
    print_lines(out, OPENING_2)
}

#[tactic(auto, unfolding(crate::specs::Texts::opening_3))]
fn print_opening_3<O: Write>(out: &mut O) -> Result<(), Unwritten>
    ensures ok { OnOk result (Appends (O.contents out.old) (O.contents out.new) opening_3) }
{
    print_lines(out, OPENING_3)
}

#[tactic(auto, unfolding(crate::specs::Texts::opening_text))]
pub fn print_opening<O: Write>(out: &mut O) -> Result<(), Unwritten>
    ensures ok { OnOk result (Appends (O.contents out.old) (O.contents out.new) opening_text) }
{
    print_opening_1(out)?;
    print_opening_2(out)?;
    print_opening_3(out)
}
