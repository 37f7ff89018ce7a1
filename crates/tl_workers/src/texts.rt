//! Fragments of a script that are read before their commands come.

ghost use Rattle.std.specs.Prelude.{◌≡◌, ◌≤◌, IfSome, length, true};
ghost use Rattle.std.specs.Arc.{arc_value};
ghost use Rattle.tl_text.specs.Words.{lines_of};
ghost use Rattle.tl_beats.specs.Reading.{whole_fragment_in};
ghost use Rattle.tl_script.specs.Asked.{asked, asking, read_as};

use std::alloc::{AllocError, Global};
use std::sync::atomic::{AtomicBool, AtomicU64, Ordering};
use std::sync::{Arc, OnceLock, Wait};
use std::thread::yield_now;
use tl_beats::{Fragment, FragmentFault};
use tl_edits::Change;
use tl_script::{Asked, Command, Spot, Text, Visitor, fragment_of, visit_all};

/// The most bytes of a fragment's text in a script.
const MOST_TEXT: usize = 8_388_608;

/// How many fragments are read ahead of their commands.
const MOST_AHEAD: u64 = 64;

/// How few of these are left when workers that sleep are called to read on.
const FEW_AHEAD: u64 = 32;

/// A text that was read: the fragment that it is, or why it is none.
#[derive(Drop)]
struct ReadText<'s> {
    text: Text<'s>,
    found: Result<Arc<Fragment>, FragmentFault>,
    ghost exact: { read_as arc_value found ≡ whole_fragment_in (lines_of text) },
}

impl<'s> ReadText<'s> {
    /// Reads a text. AllocError where memory is refused.
    fn read(alloc: Global, bytes: &'s [u8]) -> Result<ReadText<'s>, AllocError>
        requires { length bytes.now ≤ 8388608 }
    {
        let text = Text::new(bytes);
        let found = fragment_of(alloc, &text)?;
        Ok(ReadText { text, found })
    }

    /// What the text is. None where memory is refused.
    fn found(&self) -> Option<Result<Arc<Fragment>, FragmentFault>>
        ensures { IfSome result (λ found. read_as arc_value found ≡ whole_fragment_in (lines_of self.now.text)) }
    {
        match &self.found {
            Ok(fragment) => Some(Ok(Arc::try_clone(fragment).ok()?)),
            Err(fault) => Some(Err(*fault)),
        }
    }

    /// Whether this is the text of a command.
    fn is_of(&self, text: &Text<'_>) -> bool
        ensures { result ≡ true → self.now.text ≡ text.now }
    {
        self.text.as_bytes() == text.as_bytes()
    }

    /// What a command asks for, if it brings this text. None too where memory is refused.
    #[tactic(auto, unfolding(tl_script::specs::Asked::asked))]
    fn asked(&self, command: &Command<'_>) -> Option<Asked>
        ensures { IfSome result (λ found. asking found ≡ asked command.now) }
    {
        match command {
            Command::Add(text) if self.is_of(text) => Some(match self.found()? {
                Ok(fragment) => Asked::Change(Change::Add(fragment)),
                Err(fault) => Asked::NoFragment(fault),
            }),
            Command::Replace(text) if self.is_of(text) => Some(match self.found()? {
                Ok(fragment) => Asked::Change(Change::Replace(fragment)),
                Err(fault) => Asked::NoFragment(fault),
            }),
            _ => None,
        }
    }
}

/// The text of one fragment, and what it is once one thread has read it; None where memory was refused.
#[derive(Drop)]
struct FragmentText<'s> {
    // How many bytes of the script are left at its command.
    left: usize,
    bytes: &'s [u8],
    is_claimed: AtomicBool,
    read: OnceLock<Option<ReadText<'s>>>,
}

impl<'s> FragmentText<'s> {
    /// One that nobody has claimed.
    fn new(left: usize, bytes: &'s [u8]) -> FragmentText<'s> {
        FragmentText {
            left,
            bytes,
            is_claimed: AtomicBool::new(false),
            read: OnceLock::new(),
        }
    }

    /// Whether it was left to this thread to read it.
    fn claim(&self) -> bool {
        !self.is_claimed.swap(true, Ordering::SeqCst)
    }

    /// Reads it, unless another thread has claimed it.
    fn read<R: Wait>(&self, rt: &R, alloc: Global) {
        if self.claim() {
            let _ = self.read.set(rt, read_text(alloc, self.bytes));
        }
    }
}

/// A text that is read, if it is not too long. None too where memory is refused.
fn read_text(alloc: Global, bytes: &[u8]) -> Option<ReadText<'_>> {
    if bytes.len() > MOST_TEXT {
        return None;
    }
    ReadText::read(alloc, bytes).ok()
}

/// The text of the fragment that a command brings.
fn text_of<'s>(command: &Command<'s>) -> Option<&'s [u8]> {
    match command {
        Command::Add(text) | Command::Replace(text) => Some(text.as_bytes()),
        _ => None,
    }
}

/// The texts of a script's fragments in order, which threads read: the first that nobody has come to, and how many commands that
/// bring one the script's thread has come to.
#[derive(Drop)]
pub(crate) struct FragmentTexts<'s> {
    texts: Vec<FragmentText<'s>>,
    next: AtomicU64,
    come: AtomicU64,
}

impl<'s> FragmentTexts<'s> {
    /// Those of a script, up to its first line that is no command. Where memory is refused there are fewer.
    pub(crate) fn new(alloc: Global, script: &'s [u8]) -> FragmentTexts<'s> {
        FragmentTexts {
            texts: texts_of(alloc, script),
            next: AtomicU64::new(0),
            come: AtomicU64::new(0),
        }
    }

    /// The one of a number.
    fn get(&self, number: u64) -> Option<&FragmentText<'s>> {
        self.texts.get(usize::try_from(number).ok()?)
    }

    /// Whether one is to be read so that so many are read ahead.
    fn lacks(&self, ahead: u64) -> bool {
        let next = self.next.load(Ordering::SeqCst);
        let come = self.come.load(Ordering::SeqCst);
        next < self.texts.len() as u64 && next < come.saturating_add(ahead)
    }

    /// Whether workers are to be called to read on.
    pub(crate) fn are_few(&self) -> bool {
        self.lacks(FEW_AHEAD)
    }

    /// Reads the next one: whether there was one to come to.
    pub(crate) fn read_next<R: Wait>(&self, rt: &R, alloc: Global) -> bool {
        if !self.lacks(MOST_AHEAD) {
            return false;
        }
        let number = self.next.fetch_add(1, Ordering::SeqCst);
        match self.get(number) {
            Some(text) => {
                text.read(rt, alloc);
                true
            }
            None => false,
        }
    }

    /// What the next command asks for, before which so many bytes of the script are left, if its fragment was read ahead. Where
    /// another thread is reading it, this waits for it, and reads others meanwhile.
    pub(crate) fn asked<R: Wait>(
        &self,
        rt: &R,
        alloc: Global,
        left: usize,
        command: &Command<'_>,
    ) -> Option<Asked>
        ensures { IfSome result (λ found. asking found ≡ asked command.now) }
    {
        let _ = text_of(command)?;
        let text = self.get(self.come.fetch_add(1, Ordering::SeqCst))?;
        if text.left != left || text.claim() {
            return None;
        }
        for _ in rt.forever() {
            if let Some(read) = text.read.get() {
                return read.as_ref()?.asked(command);
            }
            if !self.read_next(rt, alloc) {
                yield_now();
            }
        }
        unreachable!()
    }
}

/// The texts of a script's fragments, in order.
#[derive(Drop)]
struct Texts<'s> {
    all: Vec<FragmentText<'s>>,
}

impl<'s> Visitor<'s> for Texts<'s> {
    ghost has_seen = { λ _ _ _. Unit {0} };

    fn visit(&mut self, command: &Command<'s>, spot: Spot<'s>) -> Result<(), AllocError> {
        if let Some(text) = text_of(command) {
            self.all.push(FragmentText::new(spot.rest.len(), text))?;
        }
        Ok(())
    }
}

/// The texts of a script's fragments, up to its first line that is no command. Where memory is refused there are fewer.
fn texts_of(alloc: Global, script: &[u8]) -> Vec<FragmentText<'_>> {
    let mut texts = Texts {
        all: Vec::new(alloc),
    };
    let _ = visit_all(script, &mut texts);
    texts.all
}
