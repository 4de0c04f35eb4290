//! The board, on which the book publishes its table. Readers need no lock.
ghost use Rattle.std.specs.Prelude.{◌≡◌, [], ◌∷◌, ◌++◌, drop, None, Some, MatchBool};
ghost use Rattle.left_right.specs.Sides.{view};
ghost use Rattle.klp_live.specs.Shown.{with_news, Follows, RuleIs, known_of};

use crate::history::Start;
use crate::published::{News, Published, View};
use crate::rules::Sees;
use crossbeam_utils::rule::Protocol;
use left_right::reader::Reader;
use left_right::writer::Writer;
use std::marker::Model;
use std::sync::Wait;

/// The publishing end of the board.
pub type Changes<S> = Writer<Published, Option<News>, View, S>;

/// The reading end of the board. Each seat has such an end.
pub type Place<S> = Reader<Published, View, S>;

/// Appends the news that is to be published next. Without room, the call would wait for memory. Reserving room fills
/// the place that it reserves, so the news takes a second one. It never waits for that, since the list has four
/// places once it has any, and at most four pieces of news are in it: two that one of the copies lacks, and two new
/// ones. No clause says this.
pub fn push<S: Start + Protocol<Published, View>, W: Wait>(
    rt: &W,
    changes: &mut Changes<S>,
    news: Option<News>,
)
    ensures desk { changes.new.desk ≡ changes.old.desk }
    ensures pending { drop changes.new.behind changes.new.log.items ≡ drop changes.old.behind changes.old.log.items
        ++ news ∷ [] }
{
    let mut news = news;
    for _ in rt.forever() {
        match changes.append(news) {
            Ok(()) => return,
            Err(back) => news = back,
        }
    }
    unreachable!()
}

/// Publishes one row. The caller must have reserved room for it.
pub fn announce<S: Start + Protocol<Published, View>, W: Wait>(
    rt: &W,
    changes: Changes<S>,
    news: News,
) -> Changes<S>
    requires rule { RuleIs S.holds S.first S.setting S.base S.book }
    requires room { drop changes.behind changes.log.items ≡ None ∷ [] }
    requires follows { Follows S.setting S.base changes.desk.shown.value
        (with_news changes.desk.shown.value (Some news)) }
    ensures shown { result.desk.shown.value ≡ with_news changes.desk.shown.value (Some news) }
    ensures pending { drop result.behind result.log.items ≡ [] }
    ensures known { view result.desk.place ≡ record { known = known_of result.desk.shown.value ∷ [] } }
{
    let mut changes = changes;
    push(rt, &mut changes, Some(news));
    changes.publish_as::<Sees, W>(rt).0
}

/// The publishing end of the board. When it is dropped, it must wait for its readers. A value under a lock is dropped
/// without arguments, so the board stores the handle for waiting.
pub struct Board<S: Start + Protocol<Published, View>, R: Wait + Drop> {
    changes: Changes<S>,
    rt: R,
}

impl<S: Start + Protocol<Published, View>, R: Wait + Drop> Drop for Board<S, R> {
    /// Waits until no reader is reading, then drops the publishing end.
    fn drop(self) {
        let Board { changes, rt } = self;
        changes.take(&rt);
    }
}

impl<S: Start + Protocol<Published, View>, R: Wait + Drop> Model for Board<S, R> {
    ghost use Rattle.std.specs.Prelude.{drop};
    ghost use Rattle.klp_live.specs.Boards.{OnBoard};

    ghost Value = { OnBoard };

    ghost view = { λ b. record {
      value = b.changes.desk.shown.value;
      pending = drop b.changes.behind b.changes.log.items;
    } };
}

impl<S: Start + Protocol<Published, View>, R: Wait + Drop> Board<S, R> {
    /// Makes a board from the publishing end. `rt` is the handle for waiting when the board is dropped.
    pub fn over(changes: Changes<S>, rt: R) -> Board<S, R>
        ensures { result ≡ record {
          value = changes.desk.shown.value;
          pending = drop changes.behind changes.log.items;
        } }
    {
        Board { changes, rt }
    }

    /// Reserves room for one row. Returns whether there was memory for the row.
    pub fn reserve(&mut self) -> bool
        requires { self.old.pending ≡ [] }
        ensures { MatchBool result (self.new ≡ record self.old { pending = None ∷ [] }) (self.new ≡ self.old) }
    {
        self.changes.append(None).is_ok()
    }

    /// Publishes one row. The caller must have reserved room for it.
    pub fn announce<W: Wait>(&mut self, rt: &W, news: News)
        requires rule { RuleIs S.holds S.first S.setting S.base S.book }
        requires room { self.old.pending ≡ None ∷ [] }
        requires follows { Follows S.setting S.base self.old.value (with_news self.old.value (Some news)) }
        ensures { self.new ≡ record { value = with_news self.old.value (Some news); pending = [] } }
    {
        core::mem::replace_with(&mut self.changes, news, |changes, news| {
            (announce(rt, changes, news), ())
        })
    }
}
