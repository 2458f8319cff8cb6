//! Lines of text that are put together in place.

ghost use Rattle.std.specs.Prelude.{◌≡◌, ◌+◌, ◌*◌, ◌≤◌, ◌<◌, [], ◌∷◌, ◌++◌, map, length};
ghost use Rattle.std.specs.Fmt.{decimal, signed_decimal};
ghost use Rattle.std.specs.List.{join_with_byte};
ghost use Rattle.mpicall.specs.Argument.{PeerOf, comm_argument, tag_argument, request_argument, bytes_arguments, peer_field, number_or};
ghost use Rattle.mpicall.specs.inner.Draft.{line_with};
ghost use Rattle.mpicall.specs.CallArgs.{args_in_line};
ghost use Rattle.mpicall.specs.Spelling.{space, arguments_of, fields_of, root_of, root_arguments};
ghost use Rattle.mpicall.specs.Word.{text_of};

use crate::call::{Call, Kind, Peer};
use crate::call_args::CallArgs;
use crate::word::{Word, root_of};
use arrayvec::ArrayString;
use itoa::Buffer;
use std::marker::Model;

/// The most bytes of a page.
pub const PAGE_BYTES: usize = 4096;

/// Text that is being put together, in place; contracts see its bytes so far.
#[derive(Drop)]
pub struct Page {
    text: ArrayString<PAGE_BYTES>,
}

impl Model for Page {
    ghost use Rattle.std.specs.Prelude.{List, ℕ};

    ghost Value = { List ℕ };

    ghost view = { λ p. p.text.bytes };
}

impl Page {
    pub fn new() -> Page
        ensures { result ≡ [] }
    {
        Page {
            text: ArrayString::new(),
        }
    }

    pub fn as_str(&self) -> &str
        ensures { result.now ≡ self.now }
    {
        self.text.as_str()
    }

    pub fn clear(&mut self)
        ensures { self.new ≡ [] }
    {
        self.text.clear();
    }

    pub fn push_str(&mut self, text: &str)
        requires { length self.old + length text.now ≤ PAGE_BYTES }
        ensures value { self.new ≡ self.old ++ text.now }
        ensures short { length self.new ≡ length self.old + length text.now }
    {
        self.text.push_str(text);
    }

    /// Adds a text as a further field.
    pub fn push_field(&mut self, text: &str)
        requires { length self.old + length text.now < PAGE_BYTES }
        ensures value { self.new ≡ self.old ++ space ∷ text.now }
        ensures short { length self.new ≡ length self.old + 1 + length text.now }
    {
        self.push_str(" ");
        self.push_str(text);
    }

    pub fn push_number(&mut self, number: u32)
        requires { length self.old + 12 ≤ PAGE_BYTES }
        ensures value { self.new ≡ self.old ++ space ∷ decimal number }
        ensures short { length self.new ≤ length self.old + 12 }
    {
        self.push_field(Buffer::new().format(number));
    }

    fn push_key(&mut self, key: i32)
        requires { length self.old + 12 ≤ PAGE_BYTES }
        ensures value { self.new ≡ self.old ++ space ∷ signed_decimal key }
        ensures short { length self.new ≤ length self.old + 12 }
    {
        self.push_field(Buffer::new().format(key));
    }

    /// Adds a number, or a text where there is none.
    fn push_number_or(&mut self, text: &str, number: Option<u32>)
        requires room { length self.old + 12 ≤ PAGE_BYTES }
        requires short { length text.now ≤ 11 }
        ensures value { self.new ≡ self.old ++ space ∷ number_or text.now number }
        ensures short { length self.new ≤ length self.old + 12 }
    {
        match number {
            Some(number) => self.push_number(number),
            None => self.push_field(text),
        }
    }

    fn push_peer(&mut self, peer: Peer)
        requires { length self.old + 12 ≤ PAGE_BYTES }
        ensures value { self.new ≡ self.old ++ space ∷ peer_field peer }
        ensures short { length self.new ≤ length self.old + 12 }
    {
        match peer {
            Peer::Rank(rank) => self.push_number(u32::from(rank)),
            Peer::Null => self.push_field("null"),
        }
    }

    fn push_message(&mut self, comm: u16, peer: Peer, tag: u32)
        requires { length self.old + 36 ≤ PAGE_BYTES }
        ensures value { self.new ≡ line_with self.old (comm_argument comm ∷ PeerOf peer ∷ tag_argument tag ∷ []) }
        ensures short { length self.new ≤ length self.old + 36 }
    {
        self.push_number(u32::from(comm));
        self.push_peer(peer);
        self.push_number(tag);
    }

    #[tactic(auto, using(crate::proofs::RequestLemmas::request_steps))]
    fn push_requests(&mut self, reqs: &[u32])
        requires { length self.old + 12 * length reqs.now ≤ PAGE_BYTES }
        ensures value { self.new ≡ line_with self.old (map request_argument reqs.now) }
        ensures short { length self.new ≤ length self.old + 12 * length reqs.now }
    {
        for req in reqs {
            self.push_number(*req);
        }
    }

    /// Adds the root of a rooted collective.
    fn push_root(&mut self, kind: Kind)
        requires { length self.old + 12 ≤ PAGE_BYTES }
        ensures value { self.new ≡ line_with self.old (root_arguments (root_of kind)) }
        ensures short { length self.new ≤ length self.old + 12 }
    {
        if let Some(root) = root_of(kind) {
            self.push_number(u32::from(root));
        }
    }

    /// Adds how many bytes a message has, where that is said.
    fn push_bytes(&mut self, bytes: Option<u32>)
        requires { length self.old + 12 ≤ PAGE_BYTES }
        ensures value { self.new ≡ line_with self.old (bytes_arguments bytes) }
        ensures short { length self.new ≤ length self.old + 12 }
    {
        if let Some(bytes) = bytes {
            self.push_number(bytes);
        }
    }

    pub fn push_word(&mut self, word: Word)
        requires { length self.old + 10 ≤ PAGE_BYTES }
        ensures value { self.new ≡ self.old ++ text_of word }
        ensures short { length self.new ≤ length self.old + 10 }
    {
        self.push_str(word.letter());
        self.push_str(word.stem());
    }

    /// Adds what follows a name.
    fn push_args(&mut self, call_args: CallArgs)
        requires { length self.old + 1000 ≤ PAGE_BYTES }
        ensures value { self.new ≡ line_with self.old (args_in_line call_args) }
        ensures short { length self.new ≤ length self.old + 1000 }
    {
        match call_args {
            CallArgs::Nothing => {}
            CallArgs::Message { comm, source, tag } => self.push_message(comm, source, tag),
            CallArgs::Exchange {
                comm,
                dest,
                send_tag,
                source,
                recv_tag,
                bytes,
            } => {
                self.push_message(comm, dest, send_tag);
                self.push_peer(source);
                self.push_number(recv_tag);
                self.push_bytes(bytes);
            }
            CallArgs::Copy { comm, new } => {
                self.push_number(u32::from(comm));
                self.push_number(u32::from(new));
            }
            CallArgs::Split {
                comm,
                colour,
                key,
                new,
            } => {
                self.push_number(u32::from(comm));
                self.push_number_or("undefined", colour);
                self.push_key(key);
                self.push_number_or("none", new.map(u32::from));
            }
        }
    }

    /// Adds the arguments of a call.
    fn push_arguments(&mut self, call: &Call)
        requires { length self.old + 1000 ≤ PAGE_BYTES }
        ensures value { self.new ≡ line_with self.old (arguments_of call.now) }
        ensures short { length self.new ≤ length self.old + 1000 }
    {
        match *call {
            Call::Send {
                comm,
                dest,
                tag,
                bytes,
                ..
            } => {
                self.push_message(comm, dest, tag);
                self.push_bytes(bytes);
            }
            Call::Recv { comm, source, tag } => self.push_message(comm, source, tag),
            Call::Isend {
                req,
                comm,
                dest,
                tag,
                bytes,
                ..
            } => {
                self.push_number(req);
                self.push_message(comm, dest, tag);
                self.push_bytes(bytes);
            }
            Call::Irecv {
                req,
                comm,
                source,
                tag,
            } => {
                self.push_number(req);
                self.push_message(comm, source, tag);
            }
            Call::Wait { req } => self.push_number(req),
            Call::Waitall { ref reqs } => self.push_requests(reqs.as_slice()),
            Call::Waitany { chosen, ref reqs } => {
                self.push_number(u32::from(chosen));
                self.push_requests(reqs.as_slice());
            }
            Call::Coll { comm, kind } => {
                self.push_number(u32::from(comm));
                self.push_root(kind);
            }
            Call::Icoll { req, comm, kind } => {
                self.push_number(req);
                self.push_number(u32::from(comm));
                self.push_root(kind);
            }
            _ => {
                if let Some((_, call_args)) = call.call_args() {
                    self.push_args(call_args);
                }
            }
        }
    }

    /// Adds a call's word and arguments, as a trace has them.
    pub fn push_call(&mut self, call: &Call)
        requires { length self.old + 1024 ≤ PAGE_BYTES }
        ensures value { self.new ≡ self.old ++ join_with_byte space (fields_of call.now) }
        ensures short { length self.new ≤ length self.old + 1024 }
    {
        self.push_word(Word::of(call));
        self.push_arguments(call);
    }
}
