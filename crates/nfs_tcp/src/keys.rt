//! The tokens by which the system reports clients and listeners.
ghost use Rattle.std.specs.Prelude.{◌≡◌, ◌+◌, ◌<◌, ◌^◌, Some};
ghost use Rattle.nfs_tcp.specs.Tokens.{client_of};

use mio::Token;

/// The listeners' token. No client has it.
pub(crate) const LISTENER: Token = Token(0);

/// The token of whatever else is to wake the service, which then finds no connection.
pub const WAKING: Token = LISTENER;

/// The token of a client, by its key.
pub(crate) fn token_of(key: usize) -> Token
    requires { key + 1 < 2 ^ 64 }
    ensures { client_of result ≡ Some key }
{
    Token(key + 1)
}

/// The key of a token's client. The listeners' has none.
pub(crate) fn key_of(token: Token) -> Option<usize>
    ensures { result ≡ client_of token }
{
    token.0.checked_sub(1)
}
