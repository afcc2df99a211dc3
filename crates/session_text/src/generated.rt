// The session that a load plays, made from a number.
ghost use Rattle.std.specs.Prelude.{◌≡◌, ◌+◌, ◌*◌, ◌≤◌, ◌<◌, ◌++◌, length, IfOk, OnOk};
ghost use Rattle.session_text.specs.Generated.{at_line, ban_line, behind_step, deed_numbered, deed_text, done, fetched, asked, first_load, generated, lurk_line, next_state, reply_line, request_line, step_text};
ghost use Rattle.std.specs.Fmt.{decimal};
ghost use Rattle.session_text.specs.Sessions.{session_limit};
ghost use Rattle.std.specs.Prelude.{get_or, false, ◌^◌, ℕ};

use std::alloc::{AllocError, Global};
use units::{Text, push_number};

/// So many pages are asked for, numbered from 0 on.
const PAGES: usize = 64;

/// What a step does with its page.
#[derive(Clone, Copy)]
pub(crate) enum Deed {
    /// The console bans it.
    Ban,
    /// The lurker looks at all pages.
    Lurk,
    /// Two clients ask for it.
    AskTwice,
    /// One client asks for it.
    Ask,
}

/// What the steps so far leave.
#[derive(Drop)]
pub(crate) struct Load {
    /// The generator's state.
    state: u64,
    /// The number that the next round takes.
    next: u64,
    /// For each page, whether it is stored.
    stored: [bool; 64],
}

/// The generator's next state.
fn next_state(state: u64) -> u64
    requires { state < 4294967296 }
    ensures next { result ≡ next_state state }
    ensures within { result < 2147483648 }
{
    (state * 1_103_515_245 + 12_345) % 2_147_483_648
}

/// What the number of a deed says.
fn deed_numbered(number: u64) -> Deed
    ensures { result ≡ deed_numbered number }
{
    match number {
        0 => Deed::Ban,
        1 => Deed::Lurk,
        2 => Deed::AskTwice,
        _ => Deed::Ask,
    }
}

// Puts words and a number behind them.
fn push_numbered(
    out: &mut Vec<u8>,
    alloc: Global,
    words: &[u8],
    number: u64,
) -> Result<(), AllocError>
    ensures { OnOk result (out.new.items ≡ out.old.items ++ (words.now ++ decimal number)) }
{
    out.extend_from_slice(words)?;
    push_number(out, alloc, number)
}

fn push_at(out: &mut Vec<u8>, alloc: Global, moment: u64) -> Result<(), AllocError>
    ensures { OnOk result (out.new.items ≡ out.old.items ++ at_line moment) }
{
    push_numbered(out, alloc, b"at ", moment)?;
    out.extend_from_slice(b"\n")
}

fn push_ban(out: &mut Vec<u8>, alloc: Global, page: u64) -> Result<(), AllocError>
    ensures { OnOk result (out.new.items ≡ out.old.items ++ ban_line page) }
{
    push_numbered(out, alloc, b"cli ban obj.http.j == ", page)?;
    out.extend_from_slice(b"\n")
}

fn push_request(out: &mut Vec<u8>, alloc: Global, client: u64, page: u64) -> Result<(), AllocError>
    ensures { OnOk result (out.new.items ≡ out.old.items ++ request_line client page) }
{
    push_numbered(out, alloc, b"req ", client)?;
    push_numbered(out, alloc, b" \"GET /", page)?;
    out.extend_from_slice(b" HTTP/1.1\\r\\nHost: h\\r\\n\\r\\n\"\n")
}

fn push_reply(out: &mut Vec<u8>, alloc: Global, fetch: u64, page: u64) -> Result<(), AllocError>
    ensures { OnOk result (out.new.items ≡ out.old.items ++ reply_line fetch page) }
{
    push_numbered(out, alloc, b"reply ", fetch)?;
    push_numbered(out, alloc, b" \"HTTP/1.1 200 OK\\r\\nJ: ", page)?;
    out.extend_from_slice(b"\\r\\nContent-Length: 2\\r\\n\\r\\nhi\"\n")
}

impl Load {
    fn of(seed: u32) -> Load
        ensures { result ≡ first_load seed }
    {
        Load {
            state: u64::from(seed),
            next: 1,
            stored: [false; PAGES],
        }
    }

    // Whether a page is stored.
    fn holds(&self, page: usize) -> bool
        requires { page < 64 }
        ensures { result ≡ get_or self.now.stored page false }
    {
        self.stored[page]
    }

    // Puts the reply that a page's first round gets, if it gets one.
    fn push_fetched(&self, out: &mut Vec<u8>, alloc: Global, page: usize) -> Result<(), AllocError>
        requires page { page < 64 }
        requires next { self.now.next < 2 ^ 63 }
        ensures { OnOk result (out.new.items ≡ out.old.items ++ fetched page self.now) }
    {
        if self.holds(page) {
            Ok(())
        } else {
            push_reply(out, alloc, self.next + 1, page as u64)
        }
    }

    // Puts what is written for a deed.
    fn push_deed(
        &self,
        out: &mut Vec<u8>,
        alloc: Global,
        deed: Deed,
        page: usize,
    ) -> Result<(), AllocError>
        requires page { page < 64 }
        requires next { self.now.next < 2 ^ 63 }
        ensures { OnOk result (out.new.items ≡ out.old.items ++ deed_text deed page self.now) }
    {
        match deed {
            Deed::Ban => push_ban(out, alloc, page as u64),
            Deed::Lurk => out.extend_from_slice(b"lurk 64\n"),
            Deed::AskTwice => {
                push_request(out, alloc, 1, page as u64)?;
                push_request(out, alloc, 2, page as u64)?;
                self.push_fetched(out, alloc, page)
            }
            Deed::Ask => {
                push_request(out, alloc, 1, page as u64)?;
                self.push_fetched(out, alloc, page)
            }
        }
    }

    // So many rounds ask for a page.
    fn ask(&mut self, rounds: u64, page: usize)
        requires page { page < 64 }
        requires next { self.old.next < 2 ^ 63 }
        requires rounds { rounds ≤ 2 }
        ensures asked { self.new ≡ asked rounds page self.old }
        ensures state { self.new.state ≡ self.old.state }
        ensures next { self.new.next ≤ self.old.next + 3 }
    {
        self.next += rounds;
        if !self.holds(page) {
            self.next += 1;
            self.stored[page] = true;
        }
    }

    // Does what a step does.
    fn act(&mut self, deed: Deed, page: usize)
        requires page { page < 64 }
        requires next { self.old.next < 2 ^ 63 }
        ensures done { self.new ≡ done deed page self.old }
        ensures state { self.new.state ≡ self.old.state }
        ensures next { self.new.next ≤ self.old.next + 3 }
    {
        match deed {
            Deed::Ban => self.stored[page] = false,
            Deed::Lurk => {}
            Deed::AskTwice => self.ask(2, page),
            Deed::Ask => self.ask(1, page),
        }
    }

    // Puts what the step of this number writes, and takes the step.
    fn push_step(&mut self, out: &mut Vec<u8>, alloc: Global, step: u64) -> Result<(), AllocError>
        requires state { self.old.state < 4294967296 }
        requires next { self.old.next < 2 ^ 63 }
        ensures text { OnOk result (out.new.items ≡ out.old.items ++ step_text step self.old) }
        ensures load { OnOk result (self.new ≡ behind_step self.old) }
        ensures state { OnOk result (self.new.state < 4294967296) }
        ensures next { OnOk result (self.new.next ≤ self.old.next + 3) }
    {
        push_at(out, alloc, step)?;
        self.state = next_state(self.state);
        let word = self.state / 65_536;
        let page = (word % 64) as usize;
        let deed = deed_numbered(word / 64 % 8);
        self.push_deed(out, alloc, deed, page)?;
        self.act(deed, page);
        Ok(())
    }
}

/// The session of a number with so many steps: in each a page is banned, asked for once or by two clients, or the lurker goes over
/// all pages, as the words of a linear congruential generator say that begins at the number.
pub fn generate(alloc: Global, seed: u32, steps: u32) -> Result<Text, AllocError>
    ensures { IfOk result (λ text. text ≡ generated seed steps) }
{
    let mut load = Load::of(seed);
    let mut out = Vec::new(alloc);
    for before in 0..steps {
        load.push_step(&mut out, alloc, u64::from(before) + 1)?;
    }
    out.extend_from_slice(b"end\n")?;
    Text::from_vec(out)
}

/// Up to 100,000 steps make a session within the limit of one.
pub fn generated_is_short()
    ensures { (seed steps : ℕ) → steps ≤ 100000 → length (generated seed steps) ≤ session_limit }
{}
