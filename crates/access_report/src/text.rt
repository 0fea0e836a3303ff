// The lines of a report.
ghost use Rattle.std.specs.Prelude.{◌≡◌, ◌++◌, OnOk, decimal};
ghost use Rattle.access_report.specs.Text.{about_text, answer_text, change_line, need_text, question_line, ref_name, repo_name, spaced, subject_text, user_name, verdict_text};

use crate::answers::{About, Question};
use crate::lists::Questions;
use access_check::{Letter, Verdict};
use base_types::NoMemory;
use itoa::Buffer;

fn repo_name(asked: &Questions, at: u32) -> &[u8]
    ensures { result.now ≡ repo_name asked.now at }
{
    match asked.repos().get(at as usize) {
        Some(repo) => repo.name.bytes(),
        None => b"".as_slice(),
    }
}

fn user_name(asked: &Questions, at: u32) -> &[u8]
    ensures { result.now ≡ user_name asked.now at }
{
    match asked.users().get(at as usize) {
        Some(user) => user.bytes(),
        None => b"".as_slice(),
    }
}

fn ref_name(asked: &Questions, at: u32) -> &[u8]
    ensures { result.now ≡ ref_name asked.now at }
{
    match asked.refs().get(at as usize) {
        Some(name) => name.bytes(),
        None => b"".as_slice(),
    }
}

fn push_spaced(text: &mut Vec<u8>, word: &[u8]) -> Result<(), NoMemory>
    ensures { OnOk result (text.new.items ≡ text.old.items ++ spaced word.now) }
{
    text.extend_from_slice(word)?;
    text.extend_from_slice(b" ")?;
    Ok(())
}

// A ref, and what becomes of it.
fn push_change(
    text: &mut Vec<u8>,
    asked: &Questions,
    at: u32,
    change: &[u8],
) -> Result<(), NoMemory>
    ensures { OnOk result (text.new.items ≡ text.old.items ++ (ref_name asked.now at ++ change.now)) }
{
    text.extend_from_slice(ref_name(asked, at))?;
    text.extend_from_slice(change)?;
    Ok(())
}

fn push_about(text: &mut Vec<u8>, asked: &Questions, about: About) -> Result<(), NoMemory>
    ensures { OnOk result (text.new.items ≡ text.old.items ++ about_text asked.now about) }
{
    match about {
        About::Read => Ok(text.extend_from_slice(b"any read")?),
        About::Write => Ok(text.extend_from_slice(b"any write")?),
        About::Create(at) => push_change(text, asked, at, b" create"),
        About::Forward(at) => push_change(text, asked, at, b" forward"),
        About::Rewind(at) => push_change(text, asked, at, b" rewind"),
        About::Delete(at) => push_change(text, asked, at, b" delete"),
    }
}

fn need_text(about: About, letter: &Letter) -> &'static [u8]
    ensures { result.now ≡ need_text about letter.now }
{
    match about {
        About::Read => b"R".as_slice(),
        About::Write => b"W".as_slice(),
        About::Create(_) | About::Forward(_) | About::Rewind(_) | About::Delete(_) => letter.text(),
    }
}

fn push_seq(text: &mut Vec<u8>, words: &[u8], seq: u32) -> Result<(), NoMemory>
    ensures { OnOk result (text.new.items ≡ text.old.items ++ (words.now ++ decimal seq)) }
{
    text.extend_from_slice(words)?;
    text.extend_from_slice(Buffer::new().format(seq).as_bytes())?;
    Ok(())
}

fn push_verdict(text: &mut Vec<u8>, verdict: Verdict) -> Result<(), NoMemory>
    ensures { OnOk result (text.new.items ≡ text.old.items ++ verdict_text verdict) }
{
    match verdict {
        Verdict::Allowed(seq) => push_seq(text, b"allowed by ", seq),
        Verdict::DeniedBy(seq) => push_seq(text, b"denied by ", seq),
        Verdict::Fallthru => Ok(text.extend_from_slice(b"fallthru")?),
    }
}

#[tactic(auto, unfolding(crate::specs::Text::subject_text))]
fn push_subject(text: &mut Vec<u8>, asked: &Questions, question: &Question) -> Result<(), NoMemory>
    ensures { OnOk result (text.new.items ≡ text.old.items ++ subject_text asked.now question.now) }
{
    push_spaced(text, repo_name(asked, question.repo))?;
    push_spaced(text, user_name(asked, question.user))?;
    push_about(text, asked, question.about)?;
    text.extend_from_slice(b" ")?;
    Ok(())
}

#[tactic(auto, unfolding(crate::specs::Text::answer_text))]
fn push_answer(text: &mut Vec<u8>, question: &Question) -> Result<(), NoMemory>
    ensures { OnOk result (text.new.items ≡ text.old.items ++ answer_text question.now) }
{
    push_spaced(text, need_text(question.about, &question.letter))?;
    push_verdict(text, question.verdict)
}

/// The line of a question.
#[tactic(auto, unfolding(crate::specs::Text::question_line))]
pub(crate) fn push_question(
    text: &mut Vec<u8>,
    asked: &Questions,
    question: &Question,
) -> Result<(), NoMemory>
    ensures { OnOk result (text.new.items ≡ text.old.items ++ question_line asked.now question.now) }
{
    push_subject(text, asked, question)?;
    push_answer(text, question)?;
    text.extend_from_slice(b"\n")?;
    Ok(())
}

/// The line of a question that is answered otherwise now.
#[tactic(auto, unfolding(crate::specs::Text::change_line))]
pub(crate) fn push_change_line(
    text: &mut Vec<u8>,
    asked: &Questions,
    old: &Question,
    new: &Question,
) -> Result<(), NoMemory>
    ensures { OnOk result (text.new.items ≡ text.old.items ++ change_line asked.now old.now new.now) }
{
    push_subject(text, asked, old)?;
    text.extend_from_slice(b"was ")?;
    push_answer(text, old)?;
    text.extend_from_slice(b" now ")?;
    push_answer(text, new)?;
    text.extend_from_slice(b"\n")?;
    Ok(())
}
