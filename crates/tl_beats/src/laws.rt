//! What texts and parts tell of fragments. These calls do nothing: each is there for what it promises.

ghost use Rattle.std.specs.Prelude.{◌≡◌, ◌++◌, ℕ, List, [], Result, Ok};
ghost use Rattle.tl_beats.specs.declared.fault.FragmentFault.{FragmentFault};
ghost use Rattle.tl_beats.specs.Fragments.{Frag, IsFragment};
ghost use Rattle.tl_beats.specs.Parts.{IsAnswerTo};
ghost use Rattle.tl_text.specs.Words.{lines_of};
ghost use Rattle.tl_beats.specs.Reading.{fragment_in, whole_fragment_in};
ghost use Rattle.tl_beats.specs.Text.{fragment_text};

/// Two fragments with one text are the same fragment.
pub fn texts_tell_fragments_apart()
    ensures { (f g : Frag) → IsFragment f → IsFragment g → fragment_text f ≡ fragment_text g → f ≡ g }
{}

/// No fragment's text goes on after another fragment's text: where it begins with one, nothing follows.
pub fn texts_end_by_themselves()
    ensures { (f g : Frag) (rest : List ℕ) → IsFragment f → IsFragment g → fragment_text g ≡ fragment_text f ++ rest → rest ≡ [] }
{}

/// What was written is read back: the text of a fragment is read as this fragment, by itself and whatever follows.
pub fn written_texts_are_read_back()
    ensures front { (f : Frag) (rest : List ℕ) → IsFragment f → fragment_in (lines_of (fragment_text f ++ rest)) ≡ Ok (f, lines_of rest) }
    ensures whole { (f : Frag) → IsFragment f → whole_fragment_in (lines_of (fragment_text f)) ≡ Ok f }
{}

/// Parts have one answer: the fragment that they are, or its first fault.
pub fn parts_have_one_answer()
    ensures { (parts : Frag) (r s : Result Frag FragmentFault) → IsAnswerTo parts r → IsAnswerTo parts s → r ≡ s }
{}
