ghost use Rattle.std.specs.Prelude.{◌≡◌, ◌≢◌, ◌<◌, ◌==◌, ◌++◌, ◌∷◌, [], Ok, Some, All, IfSome, not, take_while};
ghost use Rattle.ff_contract.specs.Appending.{Appends};
ghost use Rattle.ff_forms.specs.Canonical.{word};
ghost use Rattle.ff_lattice.specs.Order.{name, size, IsTag, IsOrder};
ghost use Rattle.ff_value.specs.Spelled.{IsWellSpelledInput, IsWellSpelledOut};
ghost use Rattle.ff_value.specs.declared.output.Out.TheVariants as sent;
ghost use Rattle.ff_trace.specs.Lines.{ReadsLine};
ghost use Rattle.ff_trace.specs.Pieces.{tag_text};
ghost use Rattle.ff_trace.specs.Printed.{act_items, act_parts, headed, input_line, input_text, joined, out_line, out_text};

use crate::NoMemory;
use crate::pairs::in_key_order;
use crate::pieces::{Part, print_parts, put_all};
use ff_lattice::Lattice;
use ff_name::{Domain, Level, Text};
use ff_value::{Act, Input, Out, Pairs, Worded};

/// Appends an input as a line with its newline. After `NoMemory` a front of it was appended.
pub fn print_input(input: &Input, lattice: &Lattice, out: &mut Vec<u8>) -> Result<(), NoMemory>
    requires { IsTag lattice.now input.now.tag }
    ensures appends { Appends result out.old.items out.new.items
        (input_line lattice.now input.now) }
    // What is printed is read back as the same input.
    ensures again { IsWellSpelledInput input.now
        → ReadsLine lattice.now (input_text lattice.now input.now) (Ok (Some input.now)) }
    ensures one_line { IsWellSpelledInput input.now
        → All (λ b. b ≢ 10) (input_text lattice.now input.now) }
{
    print_input_line(input, lattice, out)
}

fn print_input_line(input: &Input, lattice: &Lattice, out: &mut Vec<u8>) -> Result<(), NoMemory>
    requires { IsTag lattice.now input.now.tag }
    ensures appends { Appends result out.old.items out.new.items
        (input_line lattice.now input.now) }
    ensures known { IfSome input.now.tag (λ _. IsOrder lattice.now) }
{
    print_tag(input.tag, lattice, out)?;
    print_act(&input.act, out)?;
    put_all(b"\n", out)
}

/// Appends a tag and a blank, and nothing for no tag.
fn print_tag(tag: Option<Level>, lattice: &Lattice, out: &mut Vec<u8>) -> Result<(), NoMemory>
    requires { IsTag lattice.now tag }
    ensures appends { Appends result out.old.items out.new.items (tag_text lattice.now tag) }
    ensures known { IfSome tag (λ _. IsOrder lattice.now) }
{
    match tag {
        Some(level) => print_at(level, lattice, out),
        None => Ok(()),
    }
}

/// Appends `@`, the name of a level and a blank.
fn print_at(level: Level, lattice: &Lattice, out: &mut Vec<u8>) -> Result<(), NoMemory>
    requires { level.0 < size lattice.now }
    ensures appends { Appends result out.old.items out.new.items
        (64 ∷ (name lattice.now level.0 ++ 32 ∷ [])) }
    ensures known { IsOrder lattice.now }
{
    let name = lattice.name(level);
    put_all(b"@", out)?;
    put_all(name.as_bytes(), out)?;
    put_all(b" ", out)
}

/// Appends the name of a level and a blank.
fn print_name(level: Level, lattice: &Lattice, out: &mut Vec<u8>) -> Result<(), NoMemory>
    requires { level.0 < size lattice.now }
    ensures appends { Appends result out.old.items out.new.items
        (name lattice.now level.0 ++ 32 ∷ []) }
    ensures known { IsOrder lattice.now }
{
    put_all(lattice.name(level).as_bytes(), out)?;
    put_all(b" ", out)
}

fn print_act(act: &Act, out: &mut Vec<u8>) -> Result<(), NoMemory>
    ensures { Appends result out.old.items out.new.items (joined (act_items act.now)) }
{
    let kind = act.kind();
    print_kind(kind.word().as_bytes(), act, out)
}

/// Appends a word and the parts of an act.
fn print_kind<'a>(head: &'a [u8], act: &'a Act, out: &mut Vec<u8>) -> Result<(), NoMemory>
    ensures { Appends result out.old.items out.new.items
        (joined (word head.now ∷ act_parts act.now)) }
{
    match act {
        Act::Opens(url) => print_parts(&[Part::Word(head), Part::Address(url)], out),
        Act::Goes(win, url) => print_parts(
            &[Part::Word(head), Part::Number(*win), Part::Address(url)],
            out,
        ),
        Act::Links(win, link) => print_parts(
            &[Part::Word(head), Part::Number(*win), Part::Number(*link)],
            out,
        ),
        Act::Closes(win) => print_parts(&[Part::Word(head), Part::Number(*win)], out),
        Act::Types(win, field, text) => print_parts(
            &[
                Part::Word(head),
                Part::Number(*win),
                Part::Number(*field),
                Part::Str(text),
            ],
            out,
        ),
        Act::Clicks(win, button) => print_parts(
            &[Part::Word(head), Part::Number(*win), Part::Number(*button)],
            out,
        ),
        Act::Replies(domain, request, resp) => print_parts(
            &[
                Part::Word(head),
                Part::Word(domain.text().as_bytes()),
                Part::Number(*request),
                Part::Resp(resp),
            ],
            out,
        ),
    }
}

/// Appends an output of a level as a line with its newline: the name of the level, a blank, and the
/// output. The cookies of a request stand in byte order of their keys. After `NoMemory` a front of
/// the line was appended.
pub fn print_out(
    level: Level,
    lattice: &Lattice,
    one: &Out,
    out: &mut Vec<u8>,
) -> Result<(), NoMemory>
    requires { level.0 < size lattice.now }
    ensures appends { Appends result out.old.items out.new.items
        (out_line lattice.now level.0 one.now) }
    ensures one_line { IsWellSpelledOut one.now
        → All (λ b. b ≢ 10) (headed lattice.now level.0 one.now) }
    // The name of the level is what stands before the first blank of the line.
    ensures headed { take_while (λ b. not (b == 32)) (out_line lattice.now level.0 one.now)
        ≡ name lattice.now level.0 }
{
    print_out_line(level, lattice, one, out)
}

fn print_out_line(
    level: Level,
    lattice: &Lattice,
    one: &Out,
    out: &mut Vec<u8>,
) -> Result<(), NoMemory>
    requires { level.0 < size lattice.now }
    ensures appends { Appends result out.old.items out.new.items
        (out_line lattice.now level.0 one.now) }
    ensures known { IsOrder lattice.now }
{
    print_name(level, lattice, out)?;
    print_output(one, out)?;
    put_all(b"\n", out)
}

fn print_output(one: &Out, out: &mut Vec<u8>) -> Result<(), NoMemory>
    ensures { Appends result out.old.items out.new.items (out_text one.now) }
{
    match one {
        Out::Opened => print_parts(&[Part::Word(b"opened")], out),
        Out::Closed(win) => print_parts(&[Part::Word(b"closed"), Part::Number(*win)], out),
        Out::Loaded(win, url, shown) => print_parts(
            &[
                Part::Word(b"loaded"),
                Part::Number(*win),
                Part::Address(url),
                Part::Shown(shown),
            ],
            out,
        ),
        Out::Updated(win, shown) => print_parts(
            &[
                Part::Word(b"updated"),
                Part::Number(*win),
                Part::Shown(shown),
            ],
            out,
        ),
        Out::Error(win, fault) => print_parts(
            &[
                Part::Word(b"error"),
                Part::Number(*win),
                Part::Word(fault.word().as_bytes()),
            ],
            out,
        ),
        Out::Stopped => print_parts(&[Part::Word(b"stopped")], out),
        Out::Send(domain, request, cookies, body) => {
            print_send(domain, request, cookies, body, out)
        }
    }
}

fn print_send<'a>(
    domain: &'a Domain,
    request: &'a Text,
    cookies: &Pairs,
    body: &'a Text,
    out: &mut Vec<u8>,
) -> Result<(), NoMemory>
    ensures { Appends result out.old.items out.new.items
        (out_text (sent.Send domain.now request.now cookies.now body.now)) }
{
    let cookies = in_key_order(*out.allocator(), cookies.as_slice())?;
    print_parts(
        &[
            Part::Word(b"send"),
            Part::Word(domain.text().as_bytes()),
            Part::Str(request),
            Part::Pairs(&cookies),
            Part::Str(body),
        ],
        out,
    )
}
