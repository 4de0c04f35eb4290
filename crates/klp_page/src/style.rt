//! The markup of every page: its beginning and its end, its style, and the parts of a row.

/// How many successive quiet rows a page shows. If there are more, the page folds away the further rows.
pub(crate) const QUIET_ROWS: usize = 10;

pub(crate) const HEAD: &str = "<!doctype html><html lang=en><meta charset=utf-8>
<meta name=viewport content=\"width=device-width,initial-scale=1\"><title>";

/// The style of a page: its colours, its sentences and its rows. The styles of the drawing and the cards follow it. A
/// name is broken only if it doesn't fit on a line. Print has no backgrounds, so whatever matters on paper is drawn or
/// has a border. In print, the first cards of an open row stay on the same sheet as the row.
pub(crate) const STYLE: &str = "</title><style>
:root{color-scheme:light dark;--paper:#fff;--ink:#1b1f24;--soft:#57606a;--rule:#d9dee4;--card:#f5f7f9;--hold:#b3261e;
--focus:#0072b2}
@media screen and (prefers-color-scheme:dark){:root{--paper:#14171a;--ink:#e7eaee;--soft:#9aa4af;--rule:#2c333a;
--card:#1c2126;--hold:#ff8a80;--focus:#56b4e9}}
*{box-sizing:border-box}html{scroll-padding-top:1rem}
body{margin:0 auto;max-width:64rem;padding:1.5rem 1rem 4rem;background:var(--paper);color:var(--ink);
font:16px/1.5 system-ui,\"DejaVu Sans\",sans-serif}
h1{font-size:1.35rem;margin:0 0 .25rem}h2{font-size:1.05rem;margin:1.8rem 0 .5rem}h1,h2{break-after:avoid}
code,samp,.m{font-family:ui-monospace,\"DejaVu Sans Mono\",monospace;font-size:.86em}
code,samp,h1,.story{overflow-wrap:anywhere}h1 wbr,.story wbr{display:none}
.soft{color:var(--soft);margin:.2rem 0}a{color:inherit}
.story{margin:.2rem 0;padding:0 0 0 1.1rem}.story li{margin:.15rem 0}.holds{color:var(--hold)}
.row:target,.story li:has(:target){outline:3px solid var(--focus);outline-offset:2px}
.row{border-top:1px solid var(--rule)}
.row>summary,div.row{display:grid;grid-template-columns:3.2rem minmax(0,1.3fr) minmax(0,1fr);
gap:0 .6rem;padding:.35rem .2rem}
summary{cursor:pointer;list-style:none;break-after:avoid}summary::-webkit-details-marker{display:none}
.n{color:var(--soft);text-align:right;font-size:.86em}
.plus,.row>summary .n::before,.more>summary::before{content:\"+\";display:inline-block;width:1.05em;margin-right:.4em;
border:1px solid;border-radius:.2em;line-height:1;text-align:center}.plus{margin:0}
.row[open]>summary .n::before,.more[open]>summary::before{content:\"\\2212\"}
div.row{color:var(--soft)}samp{white-space:pre-wrap}.no samp{color:var(--hold);font-weight:600}
.held{grid-column:2/-1;justify-self:start;color:var(--hold);font-size:.86em}
.fold{position:relative;border-top:1px solid var(--rule)}
.more>summary{min-height:2.2rem;padding:.35rem .2rem .35rem 3rem}
.folded{position:absolute;top:.35rem;left:4.6rem;right:0;margin:0;color:var(--soft);pointer-events:none}
@media(max-width:40rem){.row>summary,div.row{grid-template-columns:2.6rem minmax(0,1fr)}
.row>summary samp,div.row samp{grid-column:2}.more>summary{min-height:3.6rem;padding-left:2.2rem}.folded{left:3.8rem}}
@media print{body{max-width:none;padding:0;font-size:10.5pt}.row>summary,div.row,.story li{break-inside:avoid}
.row[open]>summary{padding-bottom:7rem;margin-bottom:-7rem}
a{text-decoration:none}}
";

/// The style of a page with times, whose rows need room for the time below the number.
pub(crate) const TIMED_STYLE: &str =
    ".row>summary,div.row{grid-template-columns:5.4rem minmax(0,1.3fr) minmax(0,1fr)}.n{white-space:nowrap}
@media(max-width:40rem){.row>summary,div.row{grid-template-columns:4.4rem minmax(0,1fr)}}
";

/// The style of a page of a trace: the kernel's answers, and the rows at which the kernel differs from the rules.
pub(crate) const TRACE_STYLE: &str =
    ".row>summary>.n,div.row>.n{grid-row:1/span 2}.seen{grid-column:3;color:var(--soft);font-size:.86em;overflow-wrap:anywhere}.other{grid-column:2/-1;justify-self:start;color:var(--hold);
border:2px solid;padding:0 .4rem}.differs{border-left:.4rem solid var(--hold)}.differs .seen{color:var(--hold);font-weight:600}
@media(max-width:40rem){.seen,.other{grid-column:2}}
";

pub(crate) const STYLE_END: &str = "</style>
";

pub(crate) const COUNTS: &str = "<p class=soft>";

/// The sentence behind the title of a trace's page, if the kernel nowhere differs from the rules.
pub(crate) const AGREES: &str = ". Whatever the trace says of the kernel is as the rules say.";

/// The text in front of the number of the first row at which the kernel differs from the rules.
pub(crate) const FIRST: &str = " from the rules. The first is <a href=\"#line-";

pub(crate) const FIRST_WORD: &str = "\">line ";

pub(crate) const FIRST_END: &str = "</a>.</b>";

pub(crate) const STORY: &str = "</p>\n<h2>What happened</h2><ul class=story>\n";

pub(crate) const RUN: &str = "</ul><h2>The run</h2>";

pub(crate) const LINES: &str = "<h2>Line by line</h2>\n";

pub(crate) const PLAIN_ROW: &str = "<div class=\"row";

pub(crate) const CARD_ROW: &str = "<details class=\"row";

/// The class of a line that was refused.
pub(crate) const REFUSED: &str = " no";

pub(crate) const ID: &str = "\" id=line-";

/// The class of a row at which the kernel differs from the rules.
pub(crate) const DIFFERING: &str = " differs";

/// The attribute of a row that shows its cards at first.
pub(crate) const OPEN: &str = " open";

pub(crate) const NUMBER: &str = "><span class=n>";

pub(crate) const CARD_NUMBER: &str = "><summary><span class=n>";

/// The text in front of a line's time in seconds.
pub(crate) const TIME: &str = "<br>+";

pub(crate) const LINE: &str = "</span><code class=line>";

pub(crate) const ANSWER: &str = "</code><samp>";

pub(crate) const ANSWER_END: &str = "</samp>";

/// The text in front of the kernel's answer.
pub(crate) const SEEN: &str = "<span class=seen>the kernel: ";

pub(crate) const SEEN_END: &str = "</span>";

/// The text around the parts of a sentence on a row at which the kernel differs from the rules: the row's number, twice,
/// and its time, what the rules say, and what the kernel answered or showed.
pub(crate) const DIFFERS_AT: &str = "<li class=holds><a href=\"#line-";

pub(crate) const DIFFERS_LINK: &str = "\">Line ";

pub(crate) const DIFFERS_LINE: &str = "</a>";

pub(crate) const RULES_SAY: &str = ": the kernel differs from the rules. They say <samp>";

pub(crate) const KERNEL_SAYS: &str = "</samp>, the kernel <samp>";

pub(crate) const DIFFERS_END: &str = "</samp>.\n";

/// The mark of a row at which the kernel differs from the rules.
pub(crate) const DIFFERENCE: &str = "<b class=other>the kernel differs from the rules</b>";

pub(crate) const PLAIN_END: &str = "</div>\n";

pub(crate) const CARDS: &str = "</summary><div class=now>";

pub(crate) const CARDS_END: &str = "</div></details>\n";

pub(crate) const FOLD: &str =
    "<div class=fold><details class=more><summary aria-label=\"folded lines\"></summary>\n";

pub(crate) const FOLD_END: &str = "</details><p class=folded>";

pub(crate) const FOLDED: &str = " more: no patch and no holder changes</p></div>\n";

/// The text around the lines at a trace's beginning that were made up, and their number.
pub(crate) const SET_UP: &str =
    "<div class=fold><details class=more><summary aria-label=\"made-up lines\"></summary>\n";

pub(crate) const SET_UP_END: &str = "</details><p class=folded>";

pub(crate) const SET_UP_FOLDED: &str = " lines made up, to lead to what was seen first</p></div>\n";

pub(crate) const FOOT: &str =
    "<p class=soft>A click on a line with <span class=plus>+</span> shows what it changed.</p></html>\n";

/// The text in front of the tasks that hold the transition up after a line.
pub(crate) const HELD: &str = "<b class=held>held up by ";

pub(crate) const HELD_END: &str = "</b>";
