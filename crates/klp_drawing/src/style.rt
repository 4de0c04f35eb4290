//! The style of a drawing, its patterns and its legend.

/// The part of a page's style that the drawing needs. Colour-blind people can distinguish blue from orange, and in grey
/// one of the two colours is lighter. Print has no backgrounds, so whatever matters on paper is drawn or has a border.
/// Print has letters of 7 points, so names have less room. On a narrow screen the drawing scrolls. The right end of the
/// drawing matters most. The box of the drawing has the direction from right to left, so the right end is shown first.
pub const STYLE: &str =
    ":root{--old:#004070;--oldink:#fff;--new:#c98200;--newink:#111;--rest:#7a848e}
@media screen and (prefers-color-scheme:dark){:root{--old:#2f7ab8;--oldink:#111;--new:#ffcf66;--rest:#8a949e}}
.run{overflow-x:auto;border:1px solid var(--rule);border-radius:.5rem;padding:.6rem .6rem .6rem 0;background:var(--card)}
.run table{border-spacing:0}.run th,.run td{padding:0;vertical-align:top}.run td svg{display:block}
.run th{position:sticky;left:0;z-index:1;width:8rem;min-width:4.9rem;padding:3px .5rem 3px .6rem;text-align:left;
background:var(--card);border-right:1px solid var(--rule);font:12px/20px ui-monospace,\"DejaVu Sans Mono\",monospace;
overflow-wrap:break-word}
.run svg text{fill:var(--ink);font:12px ui-monospace,\"DejaVu Sans Mono\",monospace;paint-order:stroke;stroke-width:3px}

.run .idle{position:sticky;left:.6rem;width:fit-content;max-width:calc(100vw - 4rem);margin:.3rem .6rem;font-size:.9rem}
.run svg text.soft{fill:var(--soft)}.run svg text.above,.run svg text.gone{stroke:var(--card)}
.run rect,.legend rect{shape-rendering:crispEdges}
.old{fill:var(--old)}.new,.enabled{fill:var(--new)}.rest{fill:var(--card);stroke:var(--rest);stroke-width:2}
.coming,.leaving,.forced{fill:var(--card);stroke:var(--ink);stroke-width:2}.leaving{stroke-dasharray:5 3}
.forced{stroke-width:4}.gone{fill:var(--soft)}
svg text.old{fill:var(--oldink);stroke:var(--old)}
svg text.new,svg text.enabled{fill:var(--newink);stroke:var(--new)}
svg text.rest,svg text.coming,svg text.leaving,svg text.forced{fill:var(--ink);stroke:var(--card);
stroke-dasharray:none;stroke-width:3px}
.dark{fill:#111}.light{fill:#fff}.hatch{fill:url(#hatch)}.dots{fill:url(#dots)}.clear{fill:transparent}
.outer{fill:none;stroke:#111;stroke-width:2}.inner{fill:none;stroke:#fff;stroke-width:2}
.plate{fill:var(--card);stroke:var(--ink)}a:hover .plate,a:focus .plate{stroke:var(--focus);stroke-width:3}
.gap{fill:var(--card)}.zig,.mark{stroke:var(--ink);fill:none}.mark{stroke-dasharray:2 4.5}
.legend{display:flex;flex-wrap:wrap;gap:.2rem 1.2rem;margin:.5rem 0 0;padding:0;list-style:none;font-size:.9rem}
.legend li{break-inside:avoid}.legend svg{vertical-align:-4px;margin-right:.4rem}
@media screen and (max-width:60rem){.run{direction:rtl}.run table,.run::before{direction:ltr}.run table{margin:0 auto 0 0}
.run::before{content:\"\\2190  Earlier lines: the drawing scrolls sideways\";display:block;position:sticky;left:.6rem;
width:fit-content;font-size:.9rem;color:var(--soft)}}
@media(max-width:40rem){.run th{width:4.9rem;line-height:16px}}
@media print{.run{overflow:visible;zoom:.78;border:0;padding:0}.run .idle{max-width:none}.run rect{shape-rendering:auto}.run tr{break-inside:avoid}
.run th{position:static;width:4.9rem;padding-left:0}}
";

/// The patterns of stays. A stay is hatched if its task holds the transition up, and dotted if the task sleeps in code
/// that isn't called now. Both patterns are black and white, so they contrast with every colour.
pub(crate) const PATTERNS: &str =
    "<pattern id=hatch width=10 height=10 patternUnits=userSpaceOnUse patternTransform=\"rotate(45)\"><rect \
class=dark width=3 height=10 /><rect class=light x=3 width=3 height=10 /></pattern><pattern id=dots width=10 height=8 \
patternUnits=userSpaceOnUse><circle class=dark cx=2.5 cy=4 r=2 /><circle class=light cx=7.5 cy=4 r=2 /></pattern>";

/// The legend below the drawing.
pub(crate) const LEGEND: &str =
    "<ul class=legend><li>A patch:<li><svg width=24 height=20><rect class=coming x=1 y=1 width=22 height=18 \
/></svg>moves in<li><svg width=24 height=20><rect class=leaving x=1 y=1 width=22 height=18 /></svg>moves out<li><svg \
width=24 height=20><rect class=forced x=2 y=2 width=20 height=16 /></svg>is forced<li><svg width=24 height=20><rect \
class=enabled width=24 height=20 /></svg>is enabled<li><svg width=24 height=20><rect class=gone y=18 width=24 \
height=2 /></svg>is gone</ul>
<ul class=legend><li>A task:<li><svg width=24 height=20><rect class=old width=24 height=20 /></svg>old: doesn't run the \
patch that moves<li><svg width=24 height=20><rect class=new width=24 height=20 /></svg>new: runs it<li><svg width=24 \
height=20><rect class=rest x=1 y=1 width=22 height=18 /></svg>no patch moves<li><svg width=56 height=20><rect class=old \
y=14 width=18 height=6 /><rect class=old x=19 y=6 width=18 height=14 /><rect class=old x=38 width=18 height=20 \
/></svg>low: in user space, higher: asleep, highest: in the kernel<li><svg width=32 height=20><rect class=old width=32 \
height=20 /><rect class=hatch width=32 height=20 /><rect class=outer x=1 y=1 width=30 height=18 /><rect class=inner x=3 \
y=3 width=26 height=14 /></svg>holds the transition up: its label is the function that it sleeps in, or tells since \
when<li><svg width=32 height=20><rect class=rest x=1 y=1 width=30 height=18 /><rect class=dots width=32 height=20 /><rect \
class=outer x=1 y=1 width=30 height=18 /><rect class=inner x=3 y=3 width=26 height=14 /></svg>sleeps in code that \
isn't called now, with the same label</ul>
<ul class=legend><li>A transition:<li>\u{25b6} starts<li>\u{21ba} turns round<li>! is forced<li>\u{25a0} ends<li>\u{21b6} \
is taken back with its events</ul>\n";

/// What stands below the legend if a kernel differs from the rules somewhere.
pub(crate) const DIFFERING_LEGEND: &str =
    "<ul class=legend><li>\u{2260} the kernel differs from the rules</ul>\n";
