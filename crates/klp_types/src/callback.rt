/// The kind of a callback, which says when it runs for an object of its patch (callbacks, Callbacks). There are two
/// pairs: pre-patch with post-unpatch, and post-patch with pre-unpatch. The second callback of a pair has to clean up
/// what the first set up.
#[derive(Clone, Copy)]
pub enum Which {
    /// Pre-patch: runs before the object is patched. A status other than 0 refuses the patch. No other kind can refuse,
    /// since all others run when something is already patched.
    Pre,
    /// Post-patch: runs once the object is patched and all tasks run the patch. So a callback of this kind may use the
    /// new functions.
    Post,
    /// Pre-unpatch: runs before the object is unpatched, while all tasks still run the patch. A callback of this kind
    /// undoes what the `Post` callback did.
    PreUn,
    /// Post-unpatch: runs once the object is unpatched and no task runs the patch any more. A callback of this kind
    /// undoes what the `Pre` callback did.
    PostUn,
}

/// Returns `Pre`, the first kind. The unused elements of an array of kinds have this value, and are never read.
impl Default for Which {
    fn default() -> Self {
        Which::Pre
    }
}
