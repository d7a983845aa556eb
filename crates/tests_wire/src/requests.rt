//! Rows of requests, the type and the content with a bar between them: `told` says `read`, or names the wrong field or the fault; `read` gives what is read.
ghost use Rattle.std.specs.Prelude.{IfOk};
ghost use Rattle.jupyter_msg.specs.Opened.{IsRead};

use jupyter_msg::{Key, MsgFault, Opened, Request, RequestContent, open};
use tests_rows::{Sheet, cut, cut_cell};

/// Writes the answer to a call.
pub(crate) fn answer(call: &str, sheet: &mut Sheet) {
    let (word, rest) = cut(call);
    let (msg_type, content) = cut_cell(rest);
    let header = header_of(msg_type, sheet);
    tell(word == "read", &header, content, sheet);
}

/// The header of a message of this type.
pub(crate) fn header_of(msg_type: &str, sheet: &mut Sheet) -> String {
    let mut header = Sheet::new(sheet.alloc());
    header.write(r#"{"msg_id":"a","msg_type":""#);
    header.write(msg_type);
    header.write(r#"","session":"s"}"#);
    sheet.take(header)
}

/// The message with this header and content, under an empty key.
pub(crate) fn opened(header: &str, content: &str, sheet: &mut Sheet) -> Result<Opened, MsgFault>
    ensures { IfOk result IsRead }
{
    let mut row = Sheet::new(sheet.alloc());
    row.write("<IDS|MSG> ~  ~ ");
    row.write(header);
    row.write(" ~ {} ~ {} ~ ");
    row.write(content);
    let row = sheet.take(row);
    let frames = sheet.frames(&row);
    open(sheet.alloc(), frames, &Key::new(Vec::new(sheet.alloc())))
}

/// Writes what becomes of a message with this header and content: what is read of it, or only that it is read, or the wrong field or the fault.
pub(crate) fn tell(in_full: bool, header: &str, content: &str, sheet: &mut Sheet) {
    match opened(header, content, sheet) {
        Ok(opened) => tell_request(in_full, &opened, sheet),
        Err(fault) => tell_fault(in_full, fault, sheet),
    }
}

/// Writes what is read of a message, or only that it is read, or why it is not.
fn tell_request(in_full: bool, opened: &Opened, sheet: &mut Sheet)
    requires { IsRead opened.now }
{
    match Request::read(sheet.alloc(), opened) {
        Ok(request) => tell_content(in_full, &request.content, sheet),
        Err(fault) => tell_fault(in_full, fault, sheet),
    }
}

/// Writes what is read of a request, or only that it is read.
fn tell_content(in_full: bool, content: &RequestContent, sheet: &mut Sheet) {
    if in_full {
        sheet.show(content);
    } else {
        sheet.write("read");
    }
}

/// Writes a fault, or only the wrong field's name or the fault's.
fn tell_fault(in_full: bool, fault: MsgFault, sheet: &mut Sheet) {
    match fault {
        fault if in_full => sheet.show(&fault),
        MsgFault::BadField(field) => sheet.write(field.name()),
        fault => sheet.write(fault.name()),
    }
}
