//! Rows of messages. `hmac` (a key and a text in hexadecimal) gives the keyed hash. The others have a key and frames behind it, with ` ~ `
//! between them, each as text or behind `hex:` in hexadecimal: `open` gives what is read of a message, `changed` what becomes of it where
//! one octet behind the delimiter is changed, and `sign` the signature of four parts. `nested` opens a content with a number of lists inside one another.
ghost use Rattle.jupyter_msg.specs.Opened.{IsRead};

use crate::requests::opened;
use jupyter_msg::{Key, Message, MsgFault, Opened, Parts, Request, hmac, open, seal, sign};
use tests_rows::{Sheet, cut, cut_frame, number};

/// Writes the answer to a call.
pub(crate) fn answer(call: &str, sheet: &mut Sheet) {
    let (word, rest) = cut(call);
    match word {
        "hmac" => tell_hash(rest, sheet),
        "nested" => tell_nested(number(rest), sheet),
        _ => answer_under_key(word, rest, sheet),
    }
}

/// Writes the answer to a call with a key.
fn answer_under_key(word: &str, rest: &str, sheet: &mut Sheet) {
    let (key, row) = cut_frame(rest);
    let key = Key::new(sheet.copied(key.as_bytes()));
    match word {
        "open" => tell_opened(&key, row, sheet),
        "changed" => tell_changed(&key, row, sheet),
        _ => tell_signature(&key, row, sheet),
    }
}

/// Writes a text, or why there is none.
fn write_text(text: Result<String, MsgFault>, sheet: &mut Sheet) {
    match text {
        Ok(text) => sheet.write(&text),
        Err(fault) => sheet.show(&fault),
    }
}

/// Writes the keyed hash of a text.
fn tell_hash(row: &str, sheet: &mut Sheet) {
    let (key, text) = cut(row);
    let key = sheet.octets(key);
    let text = sheet.octets(text);
    sheet.write_hex(&hmac(&key, &text));
}

/// Writes what is read of a message.
fn tell_opened(key: &Key, row: &str, sheet: &mut Sheet) {
    let frames = sheet.frames(row);
    match open(sheet.alloc(), frames, key) {
        Ok(opened) => tell_parts(key, row, &opened, sheet),
        Err(fault) => sheet.show(&fault),
    }
}

/// Writes what is told of a message, and whether it is written under the key as it came.
fn tell_parts(key: &Key, row: &str, opened: &Opened, sheet: &mut Sheet)
    requires { IsRead opened.now }
{
    tell_sealed(key, row, &opened.message, sheet);
    tell_header(&opened.message, sheet);
    match Request::read(sheet.alloc(), opened) {
        Ok(request) => tell_request(&request, &opened.message, sheet),
        Err(fault) => sheet.show(&fault),
    }
}

/// Writes whether a message is written under the key as it came.
fn tell_sealed(key: &Key, row: &str, message: &Message, sheet: &mut Sheet) {
    let frames = sheet.frames(row);
    sheet.write("sealed ");
    match seal(sheet.alloc(), message, key) {
        Ok(sealed) => sheet.show(&(sealed == frames)),
        Err(fault) => sheet.show(&fault),
    }
    sheet.write(" ");
}

/// Writes what is told of the header, and of the frames around the parts.
fn tell_header(message: &Message, sheet: &mut Sheet) {
    write_text(message.msg_id(sheet.alloc()), sheet);
    sheet.write(" ");
    write_text(message.session(sheet.alloc()), sheet);
    sheet.write(" ");
    write_text(message.msg_type(sheet.alloc()), sheet);
    sheet.write(" ");
    sheet.show(&message.identities);
    sheet.write(" ");
    sheet.show(&message.buffers);
    sheet.write(" ");
}

/// Writes what is told of the request of a message.
fn tell_request(request: &Request, message: &Message, sheet: &mut Sheet) {
    sheet.show(&(request.header == message.header));
    sheet.write(" ");
    sheet.show(&request.identities);
    sheet.write(" ");
    sheet.show(&request.content);
}

/// Writes what becomes of the frames where one octet is changed, for each octet of those behind the delimiter in the first frame.
fn tell_changed(key: &Key, row: &str, sheet: &mut Sheet) {
    let frames = sheet.frames(row);
    for (place, frame) in frames.iter().enumerate() {
        if place > 0 {
            change_frame(key, row, place, frame.len(), sheet);
        }
    }
    sheet.write("BadSignature each time");
}

/// Changes each octet of a frame of this length.
fn change_frame(key: &Key, row: &str, place: usize, length: usize, sheet: &mut Sheet) {
    for at in 0..length {
        change_octet(key, row, place, at, sheet);
    }
}

/// Changes an octet, and says so where the frames are not refused for their signature then.
fn change_octet(key: &Key, row: &str, place: usize, at: usize, sheet: &mut Sheet) {
    let mut frames = sheet.frames(row);
    if let Some(frame) = frames.get_mut(place)
        && let Some(octet) = frame.get_mut(at)
    {
        *octet ^= 1;
    }
    let fault = open(sheet.alloc(), frames, key).err();
    if fault != Some(MsgFault::BadSignature) {
        sheet.show(&(place, at, fault));
    }
}

/// Writes the signature of a header, a parent, metadata and a content.
fn tell_signature(key: &Key, row: &str, sheet: &mut Sheet) {
    let frames = sheet.frames(row);
    match frames.as_slice() {
        [header, parent, metadata, content] => {
            let parts = Parts {
                header,
                parent,
                metadata,
                content,
            };
            write_text(sign(sheet.alloc(), key, &parts), sheet);
        }
        _ => sheet.write("not four parts"),
    }
}

/// Opens a content with a number of lists inside one another.
fn tell_nested(lists: usize, sheet: &mut Sheet) {
    let mut content = Sheet::new(sheet.alloc());
    content.write("{\"a\":");
    content.repeat("[", lists);
    content.repeat("]", lists);
    content.write("}");
    let content = sheet.take(content);
    match opened("{}", &content, sheet) {
        Ok(_) => sheet.write("opened"),
        Err(fault) => sheet.show(&fault),
    }
}
