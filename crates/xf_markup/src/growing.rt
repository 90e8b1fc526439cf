ghost use Rattle.std.specs.Prelude.{◌≡◌, ◌++◌, ◌∷◌, [], ◌≤◌, List, length, OnOk, None, true, false};
ghost use Rattle.std.specs.List.{list_all};
ghost use Rattle.xf_markup.specs.Growing.{IsSound, shown_of, names_of, begun_of, Stands, Takes, is_free, is_innermost, finished, root_marks, open_marks, within};
ghost use Rattle.xf_markup.specs.Reading.{State, is_space};
ghost use Rattle.xf_markup.specs.Marks.{Opened, Closed, tagged, said, flat_pieces, flat, nothing};
ghost use Rattle.xf_markup.specs.Tokens.{Opens, Closes, Remark, Says, token, size, HasRoom};
ghost use Rattle.xf_markup.specs.declared.growing.Frame.{Frame};

use crate::cut::Cut;
use crate::distinct::are_distinct;
use crate::fault::{syntax_at, too_deep_at};
use crate::tag::{Tag, copied};
use crate::tree::{Attr, Node, Piece};
use std::alloc::Global;
use std::mem;
use xf_num::{NoMemory, Row, Stack, Text};
use xf_text::Stop;

/// An open element, and the pieces of the element around it that stand before it.
#[derive(Debug, Drop)]
pub struct Frame {
    pub name: Text,
    pub attrs: Row<Attr>,
    pub place: u64,
    pub before: Row<Piece>,
}

/// A tree that is being read: the text before the first element, the open elements, the pieces of the innermost one,
/// the text since the last tag, and the first element once it is closed.
#[derive(Debug, Drop)]
pub struct Growing {
    pub lead: Text,
    pub outer: Stack<Frame>,
    pub pieces: Row<Piece>,
    pub words: Text,
    pub root: Option<Node>,
}

/// How many elements may be open at once.
const LEVELS: usize = 200;

// Whether all bytes are whitespace.
fn is_blank(bytes: &[u8]) -> bool
    ensures { result ≡ list_all is_space bytes.now }
{
    bytes.iter().all(|b| *b == b' ' || *b == b'\t' || *b == b'\n' || *b == b'\r')
}

impl Growing {
    /// Makes a piece of the text since the last tag.
    fn flush(&mut self, alloc: Global) -> Result<(), NoMemory>
        ensures pieces { OnOk result (flat_pieces self.new.pieces ≡ flat_pieces self.old.pieces ++ said self.old.words) }
        ensures words { OnOk result (self.new.words ≡ []) }
        ensures lead { self.new.lead ≡ self.old.lead }
        ensures outer { self.new.outer ≡ self.old.outer }
        ensures root { self.new.root ≡ self.old.root }
    {
        if self.words.len() > 0 {
            let words = mem::replace(&mut self.words, Row::new(alloc));
            self.pieces.push(Piece::Words(words))?;
        }
        Ok(())
    }

    /// Opens an element.
    fn open(
        &mut self,
        alloc: Global,
        name: Text,
        attrs: Row<Attr>,
        place: u64,
    ) -> Result<(), NoMemory>
        requires sound { IsSound self.old self.old.outer }
        requires free { is_free self.old.root self.old.outer ≡ true }
        ensures shown { OnOk result (shown_of self.new ≡ tagged (shown_of self.old) (Opened place name attrs)) }
        ensures names { OnOk result (names_of self.new ≡ name ∷ names_of self.old) }
        ensures begun { OnOk result (begun_of self.new.root self.new.outer ≡ true) }
        ensures sound { OnOk result (IsSound self.new self.new.outer) }
    {
        if self.outer.len() == 0 {
            self.lead = mem::replace(&mut self.words, Row::new(alloc));
        } else {
            self.flush(alloc)?;
        }
        let before = mem::replace(&mut self.pieces, Row::new(alloc));
        self.outer.push(Frame {
            name,
            attrs,
            place,
            before,
        })?;
        Ok(())
    }

    /// Makes the element a piece of the one around it, whose pieces before it are given, or the first element.
    #[tactic(auto, using(crate::proofs::CloseLemmas::open_marks_inner))]
    fn put(&mut self, node: Node, before: Row<Piece>) -> Result<(), NoMemory>
        requires { self.old.root ≡ None }
        ensures marks { OnOk result (root_marks self.new.root ++ open_marks self.new.outer self.new.pieces ≡ open_marks self.old.outer before ++ flat node) }
        ensures words { self.new.words ≡ self.old.words }
        ensures lead { self.new.lead ≡ self.old.lead }
        ensures outer { self.new.outer ≡ self.old.outer }
        ensures begun { OnOk result (begun_of self.new.root self.new.outer ≡ true) }
        ensures sound { OnOk result (IsSound self.new self.new.outer) }
    {
        if self.outer.len() == 0 {
            self.root = Some(node);
        } else {
            self.pieces = before;
            self.pieces.push(Piece::Inner(node))?;
        }
        Ok(())
    }

    /// Puts an element with nothing inside.
    fn leaf(
        &mut self,
        alloc: Global,
        name: Text,
        attrs: Row<Attr>,
        place: u64,
    ) -> Result<(), NoMemory>
        requires sound { IsSound self.old self.old.outer }
        requires free { is_free self.old.root self.old.outer ≡ true }
        ensures shown { OnOk result (shown_of self.new ≡ tagged (tagged (shown_of self.old) (Opened place name attrs)) (Closed name)) }
        ensures names { OnOk result (names_of self.new ≡ names_of self.old) }
        ensures begun { OnOk result (begun_of self.new.root self.new.outer ≡ true) }
        ensures sound { OnOk result (IsSound self.new self.new.outer) }
    {
        if self.outer.len() == 0 {
            self.lead = mem::replace(&mut self.words, Row::new(alloc));
        } else {
            self.flush(alloc)?;
        }
        let before = mem::replace(&mut self.pieces, Row::new(alloc));
        let node = Node {
            name,
            attrs,
            pieces: Row::new(alloc),
            place,
        };
        self.put(node, before)?;
        Ok(())
    }

    /// Closes the element of this frame, which stood within the others.
    fn close_frame(&mut self, alloc: Global, frame: Frame) -> Result<(), NoMemory>
        requires { self.old.root ≡ None }
        ensures shown { OnOk result (shown_of self.new ≡ tagged (within frame self.old) (Closed frame.name)) }
        ensures outer { self.new.outer ≡ self.old.outer }
        ensures begun { OnOk result (begun_of self.new.root self.new.outer ≡ true) }
        ensures sound { OnOk result (IsSound self.new self.new.outer) }
    {
        self.flush(alloc)?;
        let mut pieces = mem::replace(&mut self.pieces, Row::new(alloc));
        pieces.shrink_to_fit();
        let Frame {
            name,
            attrs,
            place,
            before,
        } = frame;
        let node = Node {
            name,
            attrs,
            pieces,
            place,
        };
        self.put(node, before)?;
        Ok(())
    }

    /// Closes the innermost open element.
    fn close(&mut self, alloc: Global) -> Result<(), NoMemory>
        requires sound { IsSound self.old self.old.outer }
        ensures shown { (f : Frame) (fs : List Frame) → self.old.outer ≡ f ∷ fs → OnOk result (shown_of self.new ≡ tagged (shown_of self.old) (Closed f.name)) }
        ensures outer { (f : Frame) (fs : List Frame) → self.old.outer ≡ f ∷ fs → OnOk result (self.new.outer ≡ fs) }
        ensures begun { (f : Frame) (fs : List Frame) → self.old.outer ≡ f ∷ fs → OnOk result (begun_of self.new.root self.new.outer ≡ true) }
        ensures sound { OnOk result (IsSound self.new self.new.outer) }
    {
        if let Some(frame) = self.outer.pop() {
            self.close_frame(alloc, frame)?;
        }
        Ok(())
    }

    /// Whether an element may be opened.
    fn is_free(&self) -> bool
        ensures { result ≡ is_free self.now.root self.now.outer }
    {
        self.outer.len() > 0 || self.root.is_none()
    }

    /// Whether the innermost open element has the name.
    fn is_innermost(&self, name: &[u8]) -> bool
        ensures { result ≡ is_innermost name.now self.now.outer }
    {
        match self.outer.top() {
            Some(frame) => name == frame.name.as_slice(),
            None => false,
        }
    }

    /// Takes an open tag.
    fn take_open(
        &mut self,
        alloc: Global,
        name: &[u8],
        attrs: Row<Attr>,
        is_empty: bool,
        place: u64,
    ) -> Result<(), Stop>
        requires { IsSound self.old self.old.outer }
        ensures { (s : State) → Stands self.old s → Takes self.old self.new s place (Opens place name.now attrs is_empty) result }
    {
        let is_distinct = are_distinct(alloc, attrs.as_slice())?;
        if !is_distinct || !self.is_free() {
            return Err(syntax_at(place));
        }
        if self.outer.len() >= LEVELS {
            return Err(too_deep_at(place));
        }
        let name = copied(alloc, name)?;
        if is_empty {
            self.leaf(alloc, name, attrs, place)?;
            return Ok(());
        }
        self.open(alloc, name, attrs, place)?;
        Ok(())
    }

    /// Takes an end tag.
    fn take_close(&mut self, alloc: Global, name: &[u8], place: u64) -> Result<(), Stop>
        requires { IsSound self.old self.old.outer }
        ensures { (s : State) → Stands self.old s → Takes self.old self.new s place (Closes name.now) result }
    {
        if !self.is_innermost(name) {
            return Err(syntax_at(place));
        }
        self.close(alloc)?;
        Ok(())
    }

    /// Takes a comment.
    fn take_remark(&mut self, place: u64) -> Result<(), Stop>
        requires { IsSound self.old self.old.outer }
        ensures { (s : State) → Stands self.old s → Takes self.old self.new s place Remark result }
    {
        self.words.extend(b" ")?;
        Ok(())
    }

    /// Takes a text.
    fn take_words(&mut self, words: &[u8], place: u64) -> Result<(), Stop>
        requires { IsSound self.old self.old.outer }
        ensures { (s : State) → Stands self.old s → Takes self.old self.new s place (Says words.now) result }
    {
        if self.outer.len() == 0 && !is_blank(words) {
            return Err(syntax_at(place));
        }
        self.words.extend(words)?;
        Ok(())
    }

    /// The element that was read, where it is closed at the end of the text.
    pub fn finish(self, place: u64) -> Result<Node, Stop>
        ensures { result ≡ finished place self.root }
    {
        let Growing { root, .. } = self;
        match root {
            Some(node) => Ok(node),
            None => Err(syntax_at(place)),
        }
    }

    /// Nothing is read yet.
    pub fn new(alloc: Global) -> Growing
        ensures shown { shown_of result ≡ nothing }
        ensures names { names_of result ≡ [] }
        ensures begun { begun_of result.root result.outer ≡ false }
        ensures sound { IsSound result result.outer }
    {
        Growing {
            lead: Row::new(alloc),
            outer: Stack::new(alloc),
            pieces: Row::new(alloc),
            words: Row::new(alloc),
            root: None,
        }
    }

    /// Takes the token at the front of the bytes, which stands at `place`.
    pub fn take(&mut self, alloc: Global, bytes: &[u8], cut: Cut, place: u64) -> Result<(), Stop>
        requires within { size cut ≤ length bytes.now }
        requires room { HasRoom cut (length bytes.now) }
        requires sound { IsSound self.old self.old.outer }
        ensures { (s : State) → Stands self.old s → Takes self.old self.new s place (token place bytes.now cut) result }
    {
        match cut {
            Cut::Opens(tag) => {
                let Tag {
                    name,
                    attrs,
                    is_empty,
                    ..
                } = tag;
                self.take_open(alloc, &bytes[1..name + 1], attrs, is_empty, place)
            }
            Cut::Closes(len, _) => self.take_close(alloc, &bytes[2..len + 2], place),
            Cut::Remark(_) => self.take_remark(place),
            Cut::Says(len) => self.take_words(&bytes[..len], place),
        }
    }
}
