// Laws of drawings in HTML.
ghost use Rattle.html_pages.specs.Laws.{HaveElements};

/// The law that a text in a style of a drawing is written as an element of the style's own class.
/// It does nothing; a caller calls it to use the law.
pub fn styles_have_elements()
    ensures { HaveElements }
{}
