// The parts of a request, each shown by a view that is opened for it.
ghost use Rattle.std.specs.Prelude.{◌≡◌};
ghost use Rattle.request.specs.Reading.{reading};
ghost use Rattle.request.specs.View.{extras_shown, key_shown, value_shown};

use request::view::Request;

pub(crate) fn extras(received: &[u8]) -> &[u8]
    ensures { result.now ≡ extras_shown received.now (reading received.now) }
{
    Request::open(received).extras()
}

pub(crate) fn key(received: &[u8]) -> &[u8]
    ensures { result.now ≡ key_shown received.now (reading received.now) }
{
    Request::open(received).key()
}

pub(crate) fn value(received: &[u8]) -> &[u8]
    ensures { result.now ≡ value_shown received.now (reading received.now) }
{
    Request::open(received).value()
}
