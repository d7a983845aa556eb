//! Who is told.
use crate::notice::Notice;

/// Who is told what happens on a connection, as it happens.
pub trait Watcher {
    ghost use Rattle.std.specs.Prelude.{List, [], ◌∷◌, Option, None};
    ghost use Rattle.kernel_watch.specs.declared.notice.Notice.{Notice as NoticeOf};
    ghost use Rattle.kernel_watch.specs.Hears.{Hears};

    // What it was told, in this order, where that is kept.
    ghost notices: { Self → Option (List NoticeOf) } = { λ _. None };

    /// Tells that this happened just now.
    fn tell(&mut self, notice: Notice)
        ensures { Hears (notices self.old) (notices self.new) (notice ∷ []) };

    /// Tells whether the partner answers pings: by its greeting it speaks ZMTP 3.1 or later. It is told anew with what comes.
    fn meet(&self, _answers_pings: bool) {}
}

/// A watcher that does nothing with what it is told.
#[derive(Drop)]
pub struct Unwatched;

impl Watcher for Unwatched {
    fn tell(&mut self, _note: Notice) {}
}
