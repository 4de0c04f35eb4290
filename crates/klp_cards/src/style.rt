//! The style of cards.

/// The style of cards. Cards are in a box of the class `now`. Whatever a card says by a colour, it also says in words.
pub const STYLE: &str =
    ".now{display:grid;grid-template-columns:repeat(auto-fill,minmax(16rem,1fr));gap:.6rem;
padding:.2rem .2rem 1rem 4rem}
.card{border:1px solid var(--rule);border-left:.45rem solid var(--rest);border-radius:.4rem;padding:.45rem .6rem;
background:var(--card);font-size:.92rem;break-inside:avoid}
.card.old{border-left-color:var(--old)}.card.new{border-left-color:var(--new)}.card.moves{border-left-color:var(--ink)}
.card.hold{border:2px dashed var(--hold);border-left:.45rem double var(--hold)}.card p{margin:.1rem 0}
.card ul,.card ol{margin:.2rem 0 0;padding:0 0 0 1.5rem}.card ul.m,.card ol.m{overflow-wrap:break-word}
.blocks{color:var(--hold);font-weight:600}.why{font-family:system-ui,sans-serif}.holds{color:var(--hold)}
@media(max-width:40rem){.now{padding-left:.2rem;grid-template-columns:minmax(0,1fr)}}
";
