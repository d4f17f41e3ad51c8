//! A parser of one line that keeps what waits in a list of its own, so that open signs cost no stack.
ghost use Rattle.std.specs.Prelude.{◌≡◌, ◌-◌, ◌≤◌, ◌∷◌, IfOk, OnOk, true, reverse};
ghost use Rattle.line_grammar.specs.Frames.{with_element, wanted_last, ending};
ghost use Rattle.line_grammar.specs.Machine.{start, gather, gathered, after_first, begin, leaf, push, close, turn, close_step, have_step, want_step, step_in, step_from, step, finish};
ghost use Rattle.line_grammar.specs.Scanned.{Advances, read_kept, is_first};

use crate::dialect::Dialect;
use crate::element::{ExprElement, Head};
use crate::frame::Frame;
use crate::limits::{ATOM, MOST_OPEN};
use crate::mode::LineMode;
use crate::token::LineToken;
use std::alloc::{AllocError, Global};
use std::marker::Model;

/// A line of which some tokens were read.
#[derive(Drop)]
pub struct LineParser {
    mode: LineMode,
    signs: u8,
    frames: Vec<Frame>,
    out: Vec<ExprElement>,
}

impl Model for LineParser {
    ghost use Rattle.std.specs.Prelude.{reverse};
    ghost use Rattle.line_grammar.specs.Machine.{State};

    ghost Value = { State };

    ghost view = { λ p. record {
      mode = p.mode;
      signs = p.signs;
      frames = reverse p.frames.items;
      out = reverse p.out.items;
    } };
}

/// What comes after the first token of a frame.
fn after_first(head: Head, frame: Frame) -> LineMode
    ensures { result ≡ after_first head frame }
{
    match frame {
        Frame::First(_) => LineMode::Call(head),
        _ => LineMode::Want(head),
    }
}

impl LineParser {
    /// A parser that has seen no token.
    pub fn new(alloc: Global) -> LineParser
        ensures { result ≡ start }
    {
        LineParser {
            mode: LineMode::First,
            signs: 0,
            frames: Vec::new(alloc),
            out: Vec::new(alloc),
        }
    }

    /// Forgets what was read.
    pub(crate) fn reset(&mut self)
        ensures { self.new ≡ start }
    {
        self.mode = LineMode::First;
        self.signs = 0;
        self.frames.clear();
        self.out.clear();
    }

    /// The elements of the expression that was read, in postfix order.
    pub fn elements(&self) -> &[ExprElement]
        ensures { result.now ≡ reverse self.now.out }
    {
        &self.out
    }

    /// How many signs are open.
    pub(crate) fn signs(&self) -> u8
        ensures { result ≡ self.now.signs }
    {
        self.signs
    }

    /// The last frame, if a token of this power ends it.
    fn ending(&self, power: u8) -> Option<Frame>
        ensures { result ≡ ending power self.now.frames }
    {
        match self.frames.last() {
            Some(frame) => {
                if frame.ends(power) {
                    Some(*frame)
                } else {
                    None
                }
            }
            None => None,
        }
    }

    /// Ends the frames that a token of this power ends, where an expression of this level was read.
    fn gather(&mut self, head: Head, level: u8, power: u8) -> Result<(), AllocError>
        ensures { OnOk result (self.new ≡ gather head power level self.old.signs self.old.frames self.old.out) }
    {
        let mut level = level;
        while let Some(frame) = self.ending(power) {
            self.frames.pop();
            if let Some(element) = frame.element() {
                self.out.push(element)?;
            }
            self.signs = frame.fewer(self.signs);
            level = frame.whole();
        }
        self.mode = LineMode::Have(head, level);
        Ok(())
    }

    /// The same, if an expression was read.
    fn gathered(&mut self, power: u8) -> Result<(), AllocError>
        ensures { OnOk result (self.new ≡ gathered power self.old) }
    {
        match self.mode {
            LineMode::Have(head, level) => self.gather(head, level, power),
            _ => Ok(()),
        }
    }

    /// A name or a number was read.
    fn leaf(&mut self, head: Head, element: ExprElement) -> Result<bool, AllocError>
        ensures { IfOk result (λ done. (done ≡ true) × (self.new ≡ leaf self.old head element)) }
    {
        self.out.push(element)?;
        self.mode = LineMode::Have(head, ATOM);
        Ok(true)
    }

    /// A frame begins.
    fn push(&mut self, frame: Frame, mode: LineMode) -> Result<bool, AllocError>
        requires { self.old.signs ≤ MOST_OPEN }
        ensures { IfOk result (λ done. (done ≡ true) × (self.new ≡ push self.old frame mode)) }
    {
        self.signs = frame.more(self.signs);
        self.frames.push(frame)?;
        self.mode = mode;
        Ok(true)
    }

    /// The least level that is wanted.
    fn wanted(&self) -> u8
        ensures { result ≡ wanted_last self.now.frames }
    {
        match self.frames.last() {
            Some(frame) => frame.wanted(),
            None => 0,
        }
    }

    /// A frame begins, if there is one, if the language has it, and if an expression of its level may stand here.
    fn begin(
        &mut self,
        dialect: Dialect,
        head: Head,
        frame: Option<Frame>,
    ) -> Result<bool, AllocError>
        requires { self.old.signs ≤ MOST_OPEN }
        ensures { IfOk result (λ done. Advances (begin dialect self.old head frame) done self.new) }
    {
        match frame {
            Some(frame) => {
                if dialect.has_frame(frame) && self.wanted() <= frame.whole() {
                    self.push(frame, after_first(head, frame))
                } else {
                    Ok(false)
                }
            }
            None => Ok(false),
        }
    }

    /// The next token of a line is of this mode.
    fn go(&mut self, mode: LineMode) -> Result<bool, AllocError>
        ensures { IfOk result (λ done. (done ≡ true) × (self.new ≡ record self.old { mode = mode })) }
    {
        self.mode = mode;
        Ok(true)
    }

    /// The last frame was taken off, and an operand of it was read; another is wanted.
    fn turn(&mut self, head: Head, frame: Frame) -> Result<bool, AllocError>
        ensures { IfOk result (λ done. (done ≡ true) × (self.new ≡ turn self.old head frame self.old.frames)) }
    {
        self.frames.push(frame)?;
        self.mode = LineMode::Want(head);
        Ok(true)
    }

    /// The last frame was taken off, and what stands in its parentheses has ended.
    fn close(&mut self, head: Head, element: Option<ExprElement>) -> Result<bool, AllocError>
        ensures { IfOk result (λ done. (done ≡ true)
            × (self.new ≡ close self.old head self.old.frames (with_element element self.old.out))) }
    {
        if let Some(element) = element {
            self.out.push(element)?;
        }
        self.signs = self.signs.saturating_sub(1);
        self.mode = LineMode::Have(head, ATOM);
        Ok(true)
    }

    /// An expression was read, and a token that is no operator. False says that it ends nothing that is open.
    fn end(&mut self, head: Head, token: LineToken) -> Result<bool, AllocError>
        ensures { IfOk result (λ done. Advances (close_step head self.old self.old.frames token) done self.new) }
    {
        match self.frames.pop() {
            Some(Frame::Group) => match token {
                LineToken::Close => self.close(head, None),
                _ => Ok(false),
            },
            Some(Frame::First(pair)) => match token {
                LineToken::Comma => self.turn(head, Frame::Second(pair)),
                _ => Ok(false),
            },
            Some(Frame::Second(pair)) => match token {
                LineToken::Close => self.close(head, Some(ExprElement::Pair(pair))),
                _ => Ok(false),
            },
            Some(Frame::Condition) => match token {
                LineToken::Then => self.turn(head, Frame::Chosen),
                _ => Ok(false),
            },
            Some(Frame::Chosen) => match token {
                LineToken::Else => self.turn(head, Frame::Otherwise),
                _ => Ok(false),
            },
            _ => Ok(false),
        }
    }

    /// An expression of this level was read, and then a token.
    fn have(
        &mut self,
        dialect: Dialect,
        head: Head,
        level: u8,
        token: LineToken,
    ) -> Result<bool, AllocError>
        requires { self.old.signs ≤ MOST_OPEN }
        ensures { IfOk result (λ done. Advances (have_step dialect head level self.old token) done self.new) }
    {
        match token {
            LineToken::Infix(infix, at) => {
                if dialect.has_infix(infix) && infix.left() <= level {
                    self.push(Frame::Infix(infix, at), LineMode::Want(head))
                } else {
                    Ok(false)
                }
            }
            _ => self.end(head, token),
        }
    }

    /// An operand is wanted, and a token was read.
    fn want(&mut self, dialect: Dialect, head: Head, token: LineToken) -> Result<bool, AllocError>
        requires { self.old.signs ≤ MOST_OPEN }
        ensures { IfOk result (λ done. Advances (want_step dialect head self.old token) done self.new) }
    {
        match token {
            LineToken::Name(at) => self.leaf(head, ExprElement::Name(at)),
            LineToken::Number(at) => self.leaf(head, ExprElement::Number(at)),
            _ => self.begin(dialect, head, token.begun()),
        }
    }

    /// The name of an input was read.
    fn input(&mut self, dialect: Dialect, at: usize) -> Result<bool, AllocError>
        ensures { IfOk result (λ done. Advances
            (step_in dialect LineMode.InputName self.old (LineToken.Name at)) done self.new) }
    {
        if dialect.has_width() {
            self.go(LineMode::InputWidth(at))
        } else {
            self.go(LineMode::Ended(Head::Input(at)))
        }
    }

    /// Reads a token in the mode that there is.
    fn step(&mut self, dialect: Dialect, token: LineToken) -> Result<bool, AllocError>
        requires { self.old.signs ≤ MOST_OPEN }
        ensures { IfOk result (λ done. Advances (step_from dialect self.old token) done self.new) }
    {
        match self.mode {
            LineMode::First => match token {
                LineToken::Input => self.go(LineMode::InputName),
                LineToken::Let => self.go(LineMode::LetName),
                LineToken::Output => self.go(LineMode::Want(Head::Output)),
                _ => Ok(false),
            },
            LineMode::InputName => match token {
                LineToken::Name(at) => self.input(dialect, at),
                _ => Ok(false),
            },
            LineMode::InputWidth(at) => match token {
                LineToken::Number(width) => self.go(LineMode::Ended(Head::WideInput(at, width))),
                _ => Ok(false),
            },
            LineMode::LetName => match token {
                LineToken::Name(at) => self.go(LineMode::LetEquals(at)),
                _ => Ok(false),
            },
            LineMode::LetEquals(at) => match token {
                LineToken::Equals => self.go(LineMode::Want(Head::Let(at))),
                _ => Ok(false),
            },
            LineMode::Ended(_) => Ok(false),
            LineMode::Want(head) => self.want(dialect, head, token),
            LineMode::Call(head) => match token {
                LineToken::Open => self.go(LineMode::Want(head)),
                _ => Ok(false),
            },
            LineMode::Have(head, level) => self.have(dialect, head, level, token),
        }
    }

    /// Reads one token. False says that no line goes on with it.
    pub(crate) fn advance(&mut self, dialect: Dialect, token: LineToken) -> Result<bool, AllocError>
        requires { self.old.signs ≤ MOST_OPEN }
        ensures { IfOk result (λ done. Advances (step dialect self.old token) done self.new) }
    {
        self.gathered(token.power())?;
        self.step(dialect, token)
    }

    /// Whether the line has no token.
    pub(crate) fn is_empty(&self) -> bool
        ensures { result ≡ is_first self.now.mode }
    {
        matches!(self.mode, LineMode::First)
    }

    /// What the line begins with, if it may end here.
    pub(crate) fn finish(&mut self) -> Result<Option<Head>, AllocError>
        ensures { IfOk result (λ head. read_kept self.new head ≡ finish self.old) }
    {
        self.gathered(0)?;
        match self.mode {
            LineMode::Ended(head) => Ok(Some(head)),
            LineMode::Have(head, _) => {
                if self.frames.is_empty() {
                    Ok(Some(head))
                } else {
                    Ok(None)
                }
            }
            _ => Ok(None),
        }
    }
}
