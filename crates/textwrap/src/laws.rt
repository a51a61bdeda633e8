//! What the definitions mean, as laws. Each function does nothing; a caller calls it to use its
//! law.
ghost use Rattle.std.specs.Prelude.{◌≡◌, ◌++◌, ◌-◌, length};
ghost use Rattle.textwrap.specs.OneLine.{FitsOnLine};
ghost use Rattle.textwrap.specs.Cuts.{IsCut, IsOneCut, cuts};
ghost use Rattle.textwrap.specs.Filled.{HasOneFilling, IsFilled, filled};

use crate::options::Options;

/// The law that a text is filled in exactly one way, which `filled` computes.
pub fn one_filling(_text: &str, _options: &Options<'_>)
    ensures one { HasOneFilling _options.now.width _options.now.initial_indent.now
        _options.now.subsequent_indent.now _text.now }
    ensures computed { IsFilled _options.now.width _options.now.initial_indent.now
        _options.now.subsequent_indent.now _text.now
        (filled _options.now.width _options.now.initial_indent.now
        _options.now.subsequent_indent.now _text.now) }
{}

/// The law that a word is cut in exactly one way into longest prefixes that fit the room, which
/// `cuts` computes.
pub fn one_cut(_text: &str, _room: usize)
    ensures one { IsOneCut _room _text.now }
    ensures computed { IsCut _room _text.now (cuts _room _text.now) }
{}

/// The law that a text that fits on its indent's line fills to the indent and itself.
#[tactic(auto, using(crate::proofs::OneLine::fits_is_line))]
pub fn one_line(_indent: &str, _text: &str, _options: &Options<'_>)
    requires { _indent.now ≡ _options.now.initial_indent.now }
    ensures { FitsOnLine (_options.now.width - length _indent.now) _text.now
        → filled _options.now.width _indent.now _options.now.subsequent_indent.now _text.now
        ≡ _indent.now ++ _text.now }
{}
