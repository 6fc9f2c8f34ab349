// Which call a line is: a word, then its numbers, then its byte strings.
ghost use Rattle.std.specs.Prelude.{◌≡◌, ◌≤◌, [], ◌++◌, length, IfSome};
ghost use Rattle.call_lines.specs.Call.{HasOldWithin, line_of};

use crate::fields::Fields;

/// A call, with what its line has behind the word. `k` and `v` stand apart here as the library's calls take them.
#[derive(Clone, Copy)]
pub enum Call<'l> {
    Book(&'l [u8]),
    More(&'l [u8]),
    Fill {
        len: usize,
        byte: u8,
    },
    Poke {
        at: usize,
        bytes: &'l [u8],
    },
    Init {
        k: usize,
        v: usize,
        slots: usize,
        items: u64,
        load: u16,
    },
    Open {
        k: usize,
        v: usize,
    },
    Check {
        k: usize,
        v: usize,
    },
    Find {
        k: usize,
        v: usize,
        key: &'l [u8],
    },
    Value {
        k: usize,
        v: usize,
        key: &'l [u8],
    },
    Insert {
        k: usize,
        v: usize,
        key: &'l [u8],
        value: &'l [u8],
        old: &'l [u8],
    },
    Next {
        k: usize,
        v: usize,
        from: usize,
    },
    Walk {
        k: usize,
        v: usize,
        steps: usize,
    },
    Hash(&'l [u8]),
    Bytes,
    Sum,
}

// The calls on a table: each begins with the sizes of a key and a value.
fn table_call<'l>(word: &[u8], fields: &mut Fields<'l>) -> Option<Call<'l>>
    ensures old { IfSome result (HasOldWithin (length fields.old.rest.now)) }
    ensures line { IfSome result (λ call. word.now ++ fields.old.rest.now ≡ line_of call fields.new.rest.now) }
{
    let k = fields.number()? as usize;
    let v = fields.number()? as usize;
    match word {
        b"init" => Some(Call::Init {
            k,
            v,
            slots: fields.number()? as usize,
            items: fields.number()?,
            load: u16::try_from(fields.number()?).ok()?,
        }),
        b"open" => Some(Call::Open { k, v }),
        b"check" => Some(Call::Check { k, v }),
        b"find" => Some(Call::Find {
            k,
            v,
            key: fields.bytes()?,
        }),
        b"value" => Some(Call::Value {
            k,
            v,
            key: fields.bytes()?,
        }),
        b"insert" => Some(Call::Insert {
            k,
            v,
            key: fields.bytes()?,
            value: fields.bytes()?,
            old: fields.bytes()?,
        }),
        b"next" => Some(Call::Next {
            k,
            v,
            from: fields.number()? as usize,
        }),
        b"walk" => Some(Call::Walk {
            k,
            v,
            steps: fields.number()? as usize,
        }),
        _ => None,
    }
}

// The calls on bytes as such, and then the others.
fn call_of<'l>(word: &[u8], fields: &mut Fields<'l>) -> Option<Call<'l>>
    ensures old { IfSome result (HasOldWithin (length fields.old.rest.now)) }
    ensures line { IfSome result (λ call. word.now ++ fields.old.rest.now ≡ line_of call fields.new.rest.now) }
{
    match word {
        b"book" => Some(Call::Book(fields.bytes()?)),
        b"more" => Some(Call::More(fields.bytes()?)),
        b"fill" => Some(Call::Fill {
            len: fields.number()? as usize,
            byte: u8::try_from(fields.number()?).ok()?,
        }),
        b"poke" => Some(Call::Poke {
            at: fields.number()? as usize,
            bytes: fields.bytes()?,
        }),
        b"hash" => Some(Call::Hash(fields.bytes()?)),
        b"bytes" => Some(Call::Bytes),
        b"sum" => Some(Call::Sum),
        _ => table_call(word, fields),
    }
}

/// The call that a line is, if it is one. Its byte strings lie in the line.
pub fn read_call(line: &mut [u8]) -> Option<Call<'_>>
    ensures old { IfSome result (HasOldWithin (length line.old)) }
    ensures line { IfSome result (λ call. line.old ≡ line_of call []) }
{
    let mut fields = Fields::new(line);
    let word = fields.word();
    let call = call_of(word, &mut fields)?;
    fields.is_empty().then_some(call)
}
