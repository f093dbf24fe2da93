//! What the texts of the pages mean to who reads them.
ghost use Rattle.std.specs.Prelude.{ℕ, List};
ghost use Rattle.status.specs.Reading.{InHtml, InJson, InLabel, ReadsAs};
ghost use Rattle.status.specs.Words.{escaped};
ghost use Rattle.status.specs.declared.words.Marks.TheVariants.{Html, Json, Label};

/// Whatever a text is, each octet of it is read back: between the quotation marks of a JSON string
/// and of a label's value, and in HTML. So no name ends what it stands in.
pub fn texts_are_read_back()
    ensures json { (text : List ℕ) → ReadsAs InJson (escaped Json text) text }
    ensures label { (text : List ℕ) → ReadsAs InLabel (escaped Label text) text }
    ensures html { (text : List ℕ) → ReadsAs InHtml (escaped Html text) text }
{}
