//! A parser that keeps open parentheses in a list of its own, so that their number costs no stack.
ghost use Rattle.std.specs.Prelude.{◌≡◌, ◌++◌, ◌∷◌, [], IfOk, OnOk, length, ◌↔◌, true, false, IsTrue};
ghost use Rattle.group_formula.specs.Machine.{MachineState, step, start};
ghost use Rattle.group_formula.specs.Kept.{Kept, Advances, IsKept, Closes, Separates, kept_of, with_factor, joined_out};

use crate::element::FormulaElement;
use crate::token::FormulaToken;
use std::alloc::{AllocError, Global};
use std::marker::Model;

/// What may come next.
#[derive(Clone, Copy)]
pub enum FormulaMode {
    /// A factor.
    Want,
    /// The `of` after the number at this place.
    WantOf(usize),
    /// The `(` after it.
    WantOpen(usize),
    /// An operator, a comma or a `)`: a factor was read.
    Have,
}

/// What a `(` opens.
#[derive(Clone, Copy)]
pub enum Bracket {
    Group,
    /// The list after the number at this place, of which `parts` parts stand before the one that is read.
    List { at: usize, parts: usize },
}

/// An open parenthesis, and whether the left side of a `|` and of an `&` wait before it.
#[derive(Clone, Copy)]
pub struct Frame {
    pub bracket: Bracket,
    pub or_waits: bool,
    pub and_waits: bool,
}

/// A formula of which some tokens were read.
#[derive(Drop)]
pub struct FormulaParser {
    mode: FormulaMode,
    or_waits: bool,
    and_waits: bool,
    frames: Vec<Frame>,
    out: Vec<FormulaElement>,
}

impl Model for FormulaParser {
    ghost use Rattle.group_formula.specs.Kept.{Kept};

    ghost Value = { Kept };

    ghost view = { λ p. record {
      mode = p.mode;
      or_waits = p.or_waits;
      and_waits = p.and_waits;
      frames = p.frames.items;
      out = p.out.items;
    } };
}

impl FormulaParser {
    /// A parser that has seen no token.
    pub fn new(alloc: Global) -> FormulaParser
        ensures { result ≡ kept_of start }
    {
        FormulaParser {
            mode: FormulaMode::Want,
            or_waits: false,
            and_waits: false,
            frames: Vec::new(alloc),
            out: Vec::new(alloc),
        }
    }

    /// How many parentheses are open.
    pub fn depth(&self) -> usize
        ensures { result ≡ length self.now.frames }
    {
        self.frames.len()
    }

    /// Whether the formula may end here.
    pub fn is_done(&self) -> bool
        ensures { IsTrue result ↔ ((self.now.mode ≡ FormulaMode.Have) × (length self.now.frames ≡ 0)) }
    {
        match self.mode {
            FormulaMode::Have => self.frames.is_empty(),
            _ => false,
        }
    }

    /// The elements in postfix order, once the formula has ended.
    pub fn into_elements(mut self) -> Result<Vec<FormulaElement>, AllocError>
        ensures { IfOk result (λ elements. elements.items ≡ joined_out self) }
    {
        self.join()?;
        Ok(self.out)
    }

    /// A factor was read.
    fn factor(&mut self) -> Result<bool, AllocError>
        ensures { IfOk result (λ done. (done ≡ true) × (self.new ≡ with_factor self.old)) }
    {
        if self.and_waits {
            self.out.push(FormulaElement::And)?;
        }
        self.and_waits = false;
        self.mode = FormulaMode::Have;
        Ok(true)
    }

    /// A name was read, at this place.
    fn name(&mut self, at: usize) -> Result<bool, AllocError>
        ensures { IfOk result (λ done. (done ≡ true)
            × (self.new ≡ with_factor (record self.old { out = self.old.out ++ (FormulaElement.Name at ∷ []) }))) }
    {
        self.out.push(FormulaElement::Name(at))?;
        self.factor()
    }

    /// A `(` was read, or the number, the `of` and the `(` of a list.
    fn open(&mut self, bracket: Bracket) -> Result<bool, AllocError>
        ensures { IfOk result (λ done. (done ≡ true) × (self.new ≡ record {
          mode = FormulaMode.Want;
          or_waits = false;
          and_waits = false;
          out = self.old.out;
          frames = self.old.frames
              ++ (record { bracket = bracket; or_waits = self.old.or_waits; and_waits = self.old.and_waits } ∷ []);
        })) }
    {
        self.frames.push(Frame {
            bracket,
            or_waits: self.or_waits,
            and_waits: self.and_waits,
        })?;
        self.or_waits = false;
        self.and_waits = false;
        self.mode = FormulaMode::Want;
        Ok(true)
    }

    /// The term that was read ends its expression.
    fn join(&mut self) -> Result<(), AllocError>
        ensures { OnOk result (self.new ≡ record self.old { out = joined_out self.old }) }
    {
        if self.or_waits {
            self.out.push(FormulaElement::Or)?;
        }
        Ok(())
    }

    /// A `)` was read. False says that none was open.
    fn close(&mut self) -> Result<bool, AllocError>
        requires { IsKept self.old }
        ensures { IfOk result (λ done. Closes self.old done self.new) }
    {
        self.join()?;
        match self.frames.pop() {
            None => Ok(false),
            Some(frame) => {
                if let Bracket::List { at, parts } = frame.bracket {
                    self.out.push(FormulaElement::AtLeast {
                        number: at,
                        parts: parts + 1,
                    })?;
                }
                self.or_waits = frame.or_waits;
                self.and_waits = frame.and_waits;
                self.factor()
            }
        }
    }

    /// A comma was read. False says that no list was open.
    fn separate(&mut self) -> Result<bool, AllocError>
        requires { IsKept self.old }
        ensures { IfOk result (λ done. Separates self.old done self.new) }
    {
        self.join()?;
        match self.frames.pop() {
            None => Ok(false),
            Some(frame) => match frame.bracket {
                Bracket::Group => Ok(false),
                Bracket::List { at, parts } => {
                    self.frames.push(Frame {
                        bracket: Bracket::List {
                            at,
                            parts: parts + 1,
                        },
                        or_waits: frame.or_waits,
                        and_waits: frame.and_waits,
                    })?;
                    self.or_waits = false;
                    self.and_waits = false;
                    self.mode = FormulaMode::Want;
                    Ok(true)
                }
            },
        }
    }

    /// Reads one token. False says that no formula goes on with it.
    pub fn advance(&mut self, token: FormulaToken) -> Result<bool, AllocError>
        requires { IsKept self.old }
        ensures { (s : MachineState) → self.old ≡ kept_of s → Advances (step s token) result self.new }
    {
        match self.mode {
            FormulaMode::Want => match token {
                FormulaToken::Name(at) => self.name(at),
                FormulaToken::Number(at) => {
                    self.mode = FormulaMode::WantOf(at);
                    Ok(true)
                }
                FormulaToken::Open => self.open(Bracket::Group),
                _ => Ok(false),
            },
            FormulaMode::WantOf(at) => match token {
                FormulaToken::Of => {
                    self.mode = FormulaMode::WantOpen(at);
                    Ok(true)
                }
                _ => Ok(false),
            },
            FormulaMode::WantOpen(at) => match token {
                FormulaToken::Open => self.open(Bracket::List { at, parts: 0 }),
                _ => Ok(false),
            },
            FormulaMode::Have => match token {
                FormulaToken::Bar => {
                    self.join()?;
                    self.or_waits = true;
                    self.mode = FormulaMode::Want;
                    Ok(true)
                }
                FormulaToken::Ampersand => {
                    self.and_waits = true;
                    self.mode = FormulaMode::Want;
                    Ok(true)
                }
                FormulaToken::Close => self.close(),
                FormulaToken::Comma => self.separate(),
                _ => Ok(false),
            },
        }
    }
}
