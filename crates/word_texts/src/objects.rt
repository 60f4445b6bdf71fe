//! What a frame holds, by its word.

ghost use Rattle.std.specs.Prelude.{◌≡◌};
ghost use Rattle.word_texts.specs.Objects.{object_of, object_text};

use frame_words::FrameWord;
use spk_nums::Obj;

/// The object that a frame with this word holds; Blank where it holds none.
pub fn object_of(frame: u64) -> Obj
    ensures { result ≡ object_of frame }
{
    match FrameWord::unpack(frame) {
        None => Obj::Blank,
        Some(word) => word.object,
    }
}

/// An object, by its word.
pub fn object_text(object: Obj) -> &'static str
    ensures { result.now ≡ object_text object }
{
    match object {
        Obj::Blank => "blank",
        Obj::Table => "table",
        Obj::Leaf => "leaf",
        Obj::Pages => "pages",
        Obj::Pleaf => "pleaf",
        Obj::Comp => "comp",
        Obj::Thread => "thread",
        Obj::Tcap => "tcap",
    }
}
