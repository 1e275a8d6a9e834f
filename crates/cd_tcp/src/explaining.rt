use crate::{TcpFixtures, TcpLane, TcpPeers};
use cd_stdio::Explains;
use std::fs::{File, Files};
use std::io;
use std::net::{Net, TcpStream};
use std::sync::Wait;
use std::time::Clock;

impl<'d, R: Wait + Net + Files<File = File>> Explains for TcpFixtures<'d, R> {
    fn cause(&self) -> Option<io::Error> {
        TcpFixtures::cause(self)
    }
}

impl<'d, R: Wait + Clock> Explains for TcpLane<'d, R> {
    fn cause(&self) -> Option<io::Error> {
        TcpLane::cause(self)
    }
}

impl<'d, R: Net<Stream = TcpStream> + Clock> Explains for TcpPeers<'d, R> {
    fn cause(&self) -> Option<io::Error> {
        TcpPeers::cause(self)
    }
}
