//! Texts of lists.
ghost use Rattle.std.specs.Prelude.{◌≡◌};
ghost use Rattle.status.specs.TextPage.{put};
ghost use Rattle.status.specs.Words.{behind, listed, rows};

use crate::page::TextPage;

/// How a thing is written.
pub(crate) trait Form<T> {
    ghost use Rattle.std.specs.Prelude.{◌≡◌, ℕ, List};
    ghost use Rattle.status.specs.TextPage.{put};

    /// The text of a thing.
    ghost text: { Self → T → List ℕ };

    /// Puts the text of a thing.
    fn put(&self, page: &mut TextPage, thing: &T)
        ensures { page.new ≡ put (text self.now thing.now) page.old };
}

/// Puts the texts of things one behind another.
pub(crate) fn put_rows<T, F: Form<T>>(page: &mut TextPage, form: &F, things: &[T])
    ensures { page.new ≡ put (rows (F.text form.now) things.now) page.old }
{
    for thing in things {
        form.put(page, thing);
    }
}

/// Puts the texts of things, each with a comma before it.
fn put_behind<T, F: Form<T>>(page: &mut TextPage, form: &F, things: &[T])
    ensures { page.new ≡ put (behind (F.text form.now) things.now) page.old }
{
    for thing in things {
        page.put(b",");
        form.put(page, thing);
    }
}

/// Puts the texts of things with commas between them.
pub(crate) fn put_listed<T, F: Form<T>>(page: &mut TextPage, form: &F, things: &[T])
    ensures { page.new ≡ put (listed (F.text form.now) things.now) page.old }
{
    if let [first, others @ ..] = things {
        form.put(page, first);
        put_behind(page, form, others);
    }
}
