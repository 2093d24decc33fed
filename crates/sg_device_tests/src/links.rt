//! What no clause says of the connections: that they are those of this machine's network, and in which order they are taken.

ghost use Rattle.std.specs.Prelude.{◌≡◌, false};

use sg_links::Links;
use sg_system::{Descriptors, TcpLinks};
use std::alloc::Global;
use std::io::{self, Read, Write};
use std::net::{Ipv4Addr, SocketAddr, TcpStream};
use std::test::Fail;

/// Sends an ask, and so many bytes behind it.
fn ask(alloc: Global, client: &mut TcpStream, more: usize) -> Result<(), Fail> {
    client.write_all(b"the ask\n")?;
    let body = vec![in alloc; 0; more]?;
    let sent = client.write_all(&body);
    drop(body);
    Ok(sent?)
}

/// A client that sent an ask, and so many bytes behind it.
fn asker(rt: &HostRuntime, address: SocketAddr, more: usize) -> Result<TcpStream, Fail> {
    let mut client = TcpStream::connect(rt, address)?;
    match ask(rt.alloc(), &mut client, more) {
        Ok(()) => Ok(client),
        Err(error) => {
            drop(client);
            Err(error)
        }
    }
}

/// Takes a connection, answers it, and tells whether it was a whole ask.
fn is_answered<L: Links>(links: &mut L) -> Result<bool, Fail>
    requires { L.is_open links.old ≡ false }
{
    let mut buf = [0; 8];
    links.accept()?;
    let count = links.read(&mut buf)?;
    links.put(b"answer")?;
    links.finish();
    Ok(&buf[..count] == b"the ask\n".as_slice())
}

/// Whether a client reads the answer and the end behind it.
fn has_answer(alloc: Global, client: &mut TcpStream) -> Result<bool, Fail> {
    let mut answer = Vec::new(alloc);
    let read = client.read_to_end(&mut answer);
    let same = answer.as_slice() == b"answer".as_slice();
    drop(answer);
    read?;
    Ok(same)
}

/// The ask of a client is answered, though so many bytes behind it are not read.
fn is_served<L: Links>(
    rt: &HostRuntime,
    links: &mut L,
    address: io::Result<SocketAddr>,
    more: usize,
) -> Result<bool, Fail>
    requires { L.is_open links.old ≡ false }
{
    let mut client = asker(rt, address?, more)?;
    let is_answered = is_answered(links)?;
    let has_answer = has_answer(rt.alloc(), &mut client);
    drop(client);
    let has_answer = has_answer?;
    Ok(is_answered && has_answer)
}

/// The same where a client that stays silent came first.
fn is_served_second<L: Links>(
    rt: &HostRuntime,
    links: &mut L,
    address: io::Result<SocketAddr>,
) -> Result<bool, Fail>
    requires { L.is_open links.old ≡ false }
{
    let address = address?;
    let silent = TcpStream::connect(rt, address)?;
    let is_served = is_served(rt, links, Ok(address), 0);
    drop(silent);
    is_served
}

/// Nothing is read of a client that is gone.
fn is_gone<L: Links>(
    rt: &HostRuntime,
    links: &mut L,
    address: io::Result<SocketAddr>,
) -> Result<bool, Fail>
    requires { L.is_open links.old ≡ false }
{
    drop(TcpStream::connect(rt, address?)?);
    links.accept()?;
    let count = links.read(&mut [0; 8])?;
    links.finish();
    Ok(count == 0)
}

#[test]
fn an_ask_is_answered(rt: HostRuntime) -> Result<(), Fail> {
    let mut links = TcpLinks::new(&rt);
    let _listened = links.listen(0);
    let address = links.address();
    let is_served = is_served(&rt, &mut links, address, 0);
    links.close();
    let is_closed = links.address().is_err();
    drop(links);
    assert!(rt; is_served?);
    assert!(rt; is_closed);
    Ok(())
}

#[test]
fn a_silent_one_keeps_none_waiting(rt: HostRuntime) -> Result<(), Fail> {
    let mut links = TcpLinks::new(&rt);
    let _listened = links.listen(0);
    let address = links.address();
    let is_served = is_served_second(&rt, &mut links, address);
    drop(links);
    assert!(rt; is_served?);
    Ok(())
}

#[test]
fn one_that_is_gone_is_taken(rt: HostRuntime) -> Result<(), Fail> {
    let mut links = TcpLinks::new(&rt);
    let _listened = links.listen(0);
    let address = links.address();
    let is_gone = is_gone(&rt, &mut links, address);
    drop(links);
    assert!(rt; is_gone?);
    Ok(())
}

#[test]
fn an_answer_comes_whole_though_a_body_is_unread(rt: HostRuntime) -> Result<(), Fail> {
    let mut links = TcpLinks::new(&rt);
    let _listened = links.listen(0);
    let address = links.address();
    let is_served = is_served(&rt, &mut links, address, 100_000);
    drop(links);
    assert!(rt; is_served?);
    Ok(())
}

/// The address is of this machine's own network, and no other address of it is listened on.
fn is_alone(rt: &HostRuntime, address: io::Result<SocketAddr>) -> Result<bool, Fail> {
    let address = address?;
    let elsewhere = TcpStream::connect(rt, (Ipv4Addr::new(127, 0, 0, 2), address.port()));
    let is_refused = elsewhere.is_err();
    drop(elsewhere);
    Ok(is_refused && address.ip().is_loopback())
}

#[test]
fn only_this_machine_is_listened_to(rt: HostRuntime) -> Result<(), Fail> {
    let mut links = TcpLinks::new(&rt);
    let _listened = links.listen(0);
    let is_alone = is_alone(&rt, links.address());
    drop(links);
    assert!(rt; is_alone?);
    Ok(())
}

/// How many descriptors are held while all are.
fn held_twice(rt: &HostRuntime) -> io::Result<usize> {
    let more = Descriptors::hold(rt)?;
    let held = more.held();
    drop(more);
    Ok(held)
}

#[test]
fn descriptors_are_held_once(rt: HostRuntime) -> Result<(), Fail> {
    let held = Descriptors::hold(&rt)?;
    let more = held_twice(&rt);
    drop(held);
    assert!(rt; more? == 0);
    Ok(())
}
