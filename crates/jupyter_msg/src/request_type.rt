//! The types of requests (Jupyter messaging page).
ghost use Rattle.std.specs.Prelude.{◌≡◌, Some, IfSome};
ghost use Rattle.jupyter_msg.specs.RequestType.{type_name, type_named};

/// What a request is, as its header's `msg_type` says.
#[derive(Clone, Copy)]
pub enum RequestType {
    /// `kernel_info_request`.
    KernelInfo,
    /// `execute_request`.
    Execute,
    /// `complete_request`.
    Complete,
    /// `inspect_request`.
    Inspect,
    /// `is_complete_request`.
    IsComplete,
    /// `history_request`.
    History,
    /// `comm_info_request`.
    CommInfo,
    /// `interrupt_request`.
    Interrupt,
    /// `shutdown_request`.
    Shutdown,
    /// `comm_open`.
    CommOpen,
    /// `comm_msg`.
    CommMessage,
    /// `comm_close`.
    CommClose,
}

impl RequestType {
    /// All types.
    pub const ALL: [RequestType; 12] = [
        RequestType::KernelInfo,
        RequestType::Execute,
        RequestType::Complete,
        RequestType::Inspect,
        RequestType::IsComplete,
        RequestType::History,
        RequestType::CommInfo,
        RequestType::Interrupt,
        RequestType::Shutdown,
        RequestType::CommOpen,
        RequestType::CommMessage,
        RequestType::CommClose,
    ];

    /// The type's name, as it stands in a header.
    pub fn name(self) -> &'static str
        ensures { result.now ≡ type_name self }
    {
        match self {
            RequestType::KernelInfo => "kernel_info_request",
            RequestType::Execute => "execute_request",
            RequestType::Complete => "complete_request",
            RequestType::Inspect => "inspect_request",
            RequestType::IsComplete => "is_complete_request",
            RequestType::History => "history_request",
            RequestType::CommInfo => "comm_info_request",
            RequestType::Interrupt => "interrupt_request",
            RequestType::Shutdown => "shutdown_request",
            RequestType::CommOpen => "comm_open",
            RequestType::CommMessage => "comm_msg",
            RequestType::CommClose => "comm_close",
        }
    }

    /// The first type of this name.
    #[tactic(auto, unfolding(crate::specs::RequestType::type_named))]
    fn first_named(name: &str) -> Option<RequestType>
        ensures { result ≡ type_named name.now }
    {
        RequestType::ALL
            .iter()
            .copied()
            .find(|request_type| request_type.name() == name)
    }

    /// The type of this name, if there is one.
    pub fn named(name: &str) -> Option<RequestType>
        ensures request_type { result ≡ type_named name.now }

        // It is the one type that has the name.
        ensures has_name { IfSome result (λ t. type_name t ≡ name.now) }
        ensures every { (t : RequestType) → type_name t ≡ name.now → result ≡ Some t }
    {
        RequestType::first_named(name)
    }
}
