//! The connection file, by which a kernel and its frontends find one another (Jupyter's page on kernels, "Connection
//! files").
ghost use Rattle.std.specs.Prelude.{◌≡◌, ◌⊎◌, true, false, Some, None, IfOk, IfErr, OnOk, option_map, string_bytes};
ghost use Rattle.serde_json.specs.View.{view};
ghost use Rattle.serde_json.specs.Data.{Data};
ghost use Rattle.jupyter_msg.specs.Object.{object_of};
ghost use Rattle.jupyter_msg.specs.Fault.{Refuses};
ghost use Rattle.jupyter_msg.specs.Connection.{setting, text, port, is_word, is_word_if_there, settings_from_ports, file_refusal, ArePorts, IsConnection};
ghost use Rattle.jupyter_msg.specs.Table.{first_failing};

use crate::fault::{MsgFault, Setting};
use crate::object::object_of;
use serde_json::Value;
use std::alloc::Global;
use std::fmt;

/// Where a kernel listens, and the key under which messages are signed. `Debug` leaves the key out.
#[derive(Drop)]
pub struct Connection {
    /// The address.
    pub ip: String,
    /// The port for requests.
    pub shell_port: u16,
    /// The port for broadcasts.
    pub iopub_port: u16,
    /// The port on which input would be asked for.
    pub stdin_port: u16,
    /// The port for requests that go past those on the shell port.
    pub control_port: u16,
    /// The port of the heartbeat.
    pub hb_port: u16,
    /// The text whose octets are the key; empty where nothing is signed.
    pub key: String,
}

impl fmt::Debug for Connection {
    fn fmt<W: fmt::Write>(&self, f: &mut fmt::Formatter<W>) -> fmt::Result {
        f.debug_struct("Connection")
            .field("ip", &self.ip)
            .field("shell_port", &self.shell_port)
            .field("iopub_port", &self.iopub_port)
            .field("stdin_port", &self.stdin_port)
            .field("control_port", &self.control_port)
            .field("hb_port", &self.hb_port)
            .finish_non_exhaustive()
    }
}

/// The value of a field, if the file has it.
#[tactic(auto, unfolding(crate::specs::Connection::setting))]
fn value_of(file: &Value, of: Setting) -> Option<&Value>
    ensures { option_map (λ v. view v.now) result ≡ setting of (view file.now) }
{
    file.get(of.name())
}

/// The text of a field.
fn text_of(alloc: Global, file: &Value, of: Setting) -> Result<String, MsgFault>
    ensures text { IfOk result (λ t. text (setting of (view file.now)) ≡ Some (string_bytes t)) }
    ensures refused { IfErr result (λ e. (e ≡ MsgFault.Memory)
        ⊎ ((e ≡ MsgFault.BadConnection of) × (text (setting of (view file.now)) ≡ None))) }
{
    match value_of(file, of).and_then(Value::as_str) {
        Some(text) => Ok(String::from_str(alloc, text)?),
        None => Err(MsgFault::BadConnection(of)),
    }
}

/// The port of a field.
fn port_of(file: &Value, of: Setting) -> Result<u16, MsgFault>
    ensures port { IfOk result (λ p. port (setting of (view file.now)) ≡ Some p) }
    ensures refused { IfErr result (λ e. (e ≡ MsgFault.BadConnection of)
        × (port (setting of (view file.now)) ≡ None)) }
{
    match value_of(file, of).and_then(Value::as_u64) {
        Some(port) if 0 < port && port < 65536 => Ok(port as u16),
        _ => Err(MsgFault::BadConnection(of)),
    }
}

/// The ports of a connection file.
#[derive(Drop)]
struct Ports {
    shell: u16,
    iopub: u16,
    stdin: u16,
    control: u16,
    hb: u16,
}

/// The ports of a file.
fn ports_of(file: &Value) -> Result<Ports, MsgFault>
    ensures ports { IfOk result (ArePorts (view file.now)) }
    ensures refused { IfErr result (λ e. option_map MsgFault.BadConnection
        (first_failing (λ s. setting s (view file.now)) settings_from_ports) ≡ Some e) }
{
    let shell = port_of(file, Setting::ShellPort)?;
    let iopub = port_of(file, Setting::IopubPort)?;
    let stdin = port_of(file, Setting::StdinPort)?;
    let control = port_of(file, Setting::ControlPort)?;
    let hb = port_of(file, Setting::HbPort)?;
    Ok(Ports {
        shell,
        iopub,
        stdin,
        control,
        hb,
    })
}

/// Passes a field that is this text.
fn check_word(file: &Value, of: Setting, word: &str) -> Result<(), MsgFault>
    ensures word { OnOk result (is_word word.now (setting of (view file.now)) ≡ true) }
    ensures refused { IfErr result (λ e. (e ≡ MsgFault.BadConnection of)
        × (is_word word.now (setting of (view file.now)) ≡ false)) }
{
    match value_of(file, of).and_then(Value::as_str) {
        Some(text) if text == word => Ok(()),
        _ => Err(MsgFault::BadConnection(of)),
    }
}

/// Passes a field that is this text, or that is missing.
fn check_word_if_there(file: &Value, of: Setting, word: &str) -> Result<(), MsgFault>
    ensures word { OnOk result (is_word_if_there word.now (setting of (view file.now)) ≡ true) }
    ensures refused { IfErr result (λ e. (e ≡ MsgFault.BadConnection of)
        × (is_word_if_there word.now (setting of (view file.now)) ≡ false)) }
{
    match value_of(file, of) {
        None => Ok(()),
        Some(_) => check_word(file, of, word),
    }
}

/// The object that the octets of a file are the text of.
fn file_of(alloc: Global, octets: &[u8]) -> Result<Value, MsgFault>
    ensures object { IfOk result (λ file. object_of octets.now ≡ Some (view file)) }
    ensures refused { IfErr result (λ e. (e ≡ MsgFault.Memory)
        ⊎ ((e ≡ MsgFault.BadConnection Setting.File) × (object_of octets.now ≡ None))) }
{
    object_of(alloc, octets)?.ok_or(MsgFault::BadConnection(Setting::File))
}

impl Connection {
    /// Reads the octets of a connection file: a JSON object with `transport` (`tcp`), `ip` (a text), `shell_port`,
    /// `iopub_port`, `stdin_port`, `control_port`, `hb_port` (1 to 65535), `key` (a text) and `signature_scheme`
    /// (`hmac-sha256`, also where it is missing). Other fields are passed over; of one given twice the last counts.
    ///
    /// # Errors
    ///
    /// `BadConnection` with the first wrong field in this order, and with `file` where the octets are not the text of an
    /// object; `Memory`.
    pub fn read(alloc: Global, octets: &[u8]) -> Result<Connection, MsgFault>
        ensures connection { IfOk result (λ c. (file : Data) × (object_of octets.now ≡ Some file)
            × IsConnection file c) }
        ensures exactly { Refuses result (file_refusal (object_of octets.now)) }
    {
        let file = file_of(alloc, octets)?;
        Connection::of_file(alloc, &file)
    }

    /// Reads the fields of a connection file.
    fn of_file(alloc: Global, file: &Value) -> Result<Connection, MsgFault>
        ensures connection { IfOk result (IsConnection (view file.now)) }
        ensures exactly { Refuses result (file_refusal (Some (view file.now))) }
    {
        check_word(file, Setting::Transport, "tcp")?;
        let ip = text_of(alloc, file, Setting::Ip)?;
        let ports = ports_of(file)?;
        let key = text_of(alloc, file, Setting::Key)?;
        check_word_if_there(file, Setting::SignatureScheme, "hmac-sha256")?;
        Ok(Connection {
            ip,
            shell_port: ports.shell,
            iopub_port: ports.iopub,
            stdin_port: ports.stdin,
            control_port: ports.control,
            hb_port: ports.hb,
            key,
        })
    }
}
