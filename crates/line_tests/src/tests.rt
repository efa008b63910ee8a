mod live;
mod make;
mod script;
mod session;
