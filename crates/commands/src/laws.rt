//! Laws on what a run replies.
ghost use Rattle.commands.specs.Replies.{NormaliseReplies};

/// What `normalise` replies is `RepliedTo`.
pub fn normalise_replies()
    ensures { NormaliseReplies }
{}
