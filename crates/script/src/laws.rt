// What holds of every script.
ghost use Rattle.script.specs.Laws.{CommentsDoNotCount, WrittenIsRead};

// A comment changes nothing.
pub fn comments_do_not_count()
    ensures { CommentsDoNotCount }
{}

// Each command can be written down.
pub fn written_is_read()
    ensures { WrittenIsRead }
{}
